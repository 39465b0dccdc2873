//! A configuration.

/// The external address 192.0.2.1 for the hosts of 10.0.0.0/8.
pub(crate) const PROFILE: &str = "quota = 64
lifetime_min = 120
lifetime_max = 86400
third_party = []

[[external]]
address = \"192.0.2.1\"
low = 1024
high = 65535

[[subscriber]]
prefix = \"10.0.0.0/8\"
external = \"192.0.2.1\"
";

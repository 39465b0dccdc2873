//! What holds of the PEER leases of a table. A proof that needs a law calls its function.
ghost use Rattle.peer_table.specs.Laws.{SoundTablesHaveSoundPeers, FewerPeersAreSound, PeersAreSoundWithOneMore};

/// The PEER leases of a sound table are sound by themselves.
pub fn sound_tables_have_sound_peers()
    ensures { SoundTablesHaveSoundPeers }
{}

/// Of sound leases, those that pass a test are sound.
pub fn fewer_peers_are_sound()
    ensures { FewerPeersAreSound }
{}

/// Sound leases are sound with one more that overlaps none of them, where one of them has its key,
/// or they and those of its endpoint are fewer than may be.
pub fn peers_are_sound_with_one_more()
    ensures { PeersAreSoundWithOneMore }
{}

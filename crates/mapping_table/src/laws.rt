//! What holds of the MAP leases of a table. A proof that needs a law calls its function.
ghost use Rattle.mapping_table.specs.Laws.{SoundTablesHaveSoundMaps, FewerMapsAreSound, MapsAreSoundWithOneMore};

/// The MAP leases of a sound table are sound by themselves.
pub fn sound_tables_have_sound_maps()
    ensures { SoundTablesHaveSoundMaps }
{}

/// Of sound leases, those that pass a test are sound.
pub fn fewer_maps_are_sound()
    ensures { FewerMapsAreSound }
{}

/// Sound leases are sound with one more that overlaps none of them, where one of them has its key
/// or they are fewer than may be.
pub fn maps_are_sound_with_one_more()
    ensures { MapsAreSoundWithOneMore }
{}

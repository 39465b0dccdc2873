//! The status that a fault below is told as.
ghost use Rattle.std.specs.Prelude.{◌≡◌};
ghost use Rattle.pcp_server.specs.Statuses.{loaded_as, played_as, undumped_as, unopened_as, unread_as};

use config_source::ConfigFault;
use journal_dump::DumpFault;
use lease_house::HouseFault;
use load_player::LoadStatus;
use script_player::PlayStatus;
use server_commands::Status;

/// The status that a configuration which wasn't read, or is refused, is told as.
pub fn unread_as(fault: ConfigFault) -> Status
    ensures { result ≡ unread_as fault }
{
    match fault {
        ConfigFault::Refused(cause) => Status::ConfigRefused(cause),
        ConfigFault::Read => Status::ReadFault,
        ConfigFault::Memory => Status::Memory,
    }
}

/// The status that a journal which wasn't opened is told as.
pub fn unopened_as(fault: HouseFault) -> Status
    ensures { result ≡ unopened_as fault }
{
    match fault {
        HouseFault::Disk(shard) => Status::DiskFault(shard),
        HouseFault::Memory => Status::Memory,
    }
}

/// Of a script.
pub(crate) fn played_as(status: PlayStatus) -> Status
    ensures { result ≡ played_as status }
{
    match status {
        PlayStatus::Done => Status::Done,
        PlayStatus::ScriptRefused(line) => Status::ScriptRefused(line),
        PlayStatus::ReadFault => Status::ReadFault,
        PlayStatus::WriteFault => Status::WriteFault,
        PlayStatus::DiskFault(shard) => Status::DiskFault(shard),
        PlayStatus::Memory => Status::Memory,
    }
}

/// Of a load.
pub(crate) fn loaded_as(status: LoadStatus) -> Status
    ensures { result ≡ loaded_as status }
{
    match status {
        LoadStatus::Done => Status::Done,
        LoadStatus::WriteFault => Status::WriteFault,
        LoadStatus::DiskFault(shard) => Status::DiskFault(shard),
        LoadStatus::Memory => Status::Memory,
    }
}

/// Of a dump that isn't whole.
pub(crate) fn undumped_as(fault: DumpFault) -> Status
    ensures { result ≡ undumped_as fault }
{
    match fault {
        DumpFault::Disk(shard) => Status::DiskFault(shard),
        DumpFault::Write => Status::WriteFault,
        DumpFault::Memory => Status::Memory,
    }
}

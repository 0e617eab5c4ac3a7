// The commands of document 01, by GID and OID.
ghost use Rattle.std.specs.Prelude.{◌≡◌};
ghost use Rattle.state.specs.Commands.{command_of};

use crate::names;

// The commands that the bench knows. No Option: what is unknown is answered too.
#[derive(Clone, Copy)]
pub enum Command {
    Reset,
    Init,
    ConnCreate,
    ConnClose,
    Discover,
    Select,
    Deactivate,
    Unknown,
    SetConfig,
    GetConfig,
}

// The command that a GID and an OID name (003, Table 139).
#[tactic(auto, unfolding(crate::specs::Commands::command_of))]
pub fn command_of(gid: u8, oid: u8) -> Command
    ensures { result ≡ command_of gid oid }
{
    match gid {
        names::GID_CORE => match oid {
            names::OID_RESET => Command::Reset,
            names::OID_INIT => Command::Init,
            names::OID_CONN_CREATE => Command::ConnCreate,
            names::OID_CONN_CLOSE => Command::ConnClose,
            names::OID_SET_CONFIG => Command::SetConfig,
            names::OID_GET_CONFIG => Command::GetConfig,
            _ => Command::Unknown,
        },
        names::GID_RF => match oid {
            names::OID_DISCOVER => Command::Discover,
            names::OID_SELECT => Command::Select,
            names::OID_DEACTIVATE => Command::Deactivate,
            _ => Command::Unknown,
        },
        _ => Command::Unknown,
    }
}

// The octets of every message that the controller sends, written into the caller's buffer. It has room for the
// longest payload of a control message.
ghost use Rattle.std.specs.Prelude.{◌≡◌, [], ◌∷◌, ◌++◌, ◌+◌, ◌≤◌, length, eqb};
ghost use Rattle.octets.specs.Octets.{pick, splice};
ghost use Rattle.state.specs.Names.{gid_core, gid_rf, oid_reset, oid_generic_error, oid_discover, oid_activated, oid_deactivate};
ghost use Rattle.state.specs.Runs.{control_limit};
ghost use Rattle.config.specs.Commands.{count_in, param_at, set_rsp, get_rsp};
ghost use Rattle.messages.specs.Layout.{Put, MayPut, reset_ntf, init_rsp, create_rsp, generic_error_ntf, discover_ntf, activated_ntf, deactivate_ntf, credits_message, response_message, notice_message};

use config::table::CONFIG_SIZE;
use config::{get, set};
use state::conn::{conn_of, owing};
use state::kinds::{Activation, Counts, Profile, Terms};
use state::runs::CONTROL_LIMIT;
use state::verdict::{Status, Verdict};
use state::{fields, names};

// A message that was written: its GID and OID, and its length. Its octets lie over the front of the caller's buffer, whose rest stays
// (`Put`).
#[derive(Clone, Copy)]
pub struct Note {
    pub gid: u8,
    pub oid: u8,
    pub len: usize,
}

// Writes a message over the front of the buffer.
fn emit(out: &mut [u8], gid: u8, oid: u8, o: &[u8]) -> Note
    requires { length o.now ≤ length out.old }
    ensures { Put out.old (record { gid = gid; oid = oid; payload = o.now }) result out.new }
{
    octets::put(out, 0, o);
    Note {
        gid,
        oid,
        len: o.len(),
    }
}

// Writes a message of fixed fields around its parameters.
fn emit_around(out: &mut [u8], gid: u8, oid: u8, head: &[u8], params: &[u8], tail: &[u8]) -> Note
    requires { length head.now + length params.now + length tail.now ≤ length out.old }
    ensures { Put out.old (record { gid = gid; oid = oid; payload = head.now ++ (params.now ++ tail.now) }) result out.new }
{
    let h = head.len();
    let n = params.len();
    octets::put(out, 0, head);
    octets::put(out, h, params);
    octets::put(out, h + n, tail);
    Note {
        gid,
        oid,
        len: h + n + tail.len(),
    }
}

// A status alone.
fn status(out: &mut [u8; CONTROL_LIMIT], gid: u8, oid: u8, s: u8) -> Note
    ensures { Put out.old (record { gid = gid; oid = oid; payload = s ∷ [] }) result out.new }
{
    emit(out, gid, oid, &[s])
}

// CORE_INIT_RSP (003, Table 8).
fn init_rsp(out: &mut [u8; CONTROL_LIMIT], gid: u8, oid: u8, control: u8) -> Note
    ensures { Put out.old (record { gid = gid; oid = oid; payload = init_rsp control }) result out.new }
{
    let mut o = [0x00; fields::INIT_LENGTH];
    o[fields::INIT_CONNS] = 0x04;
    o[fields::INIT_CONTROL] = control;
    o[fields::INIT_INTERFACES] = 0x01;
    o[fields::INIT_INTERFACE] = names::FRAME_INTERFACE;
    emit(out, gid, oid, &o)
}

// CORE_CONN_CREATE_RSP (003, Table 14).
fn create_rsp(out: &mut [u8; CONTROL_LIMIT], gid: u8, oid: u8, t: Terms, id: u8) -> Note
    ensures { Put out.old (record { gid = gid; oid = oid; payload = create_rsp t id }) result out.new }
{
    let mut o = [0x00; fields::CREATE_LENGTH];
    o[fields::STATUS] = names::STATUS_OK;
    o[fields::CREATE_PAYLOAD] = t.payload;
    o[fields::CREATE_CREDITS] = t.credits;
    o[fields::CREATE_CONN] = id;
    emit(out, gid, oid, &o)
}

// CORE_SET_CONFIG_RSP (003, Table 11) to a whole list.
fn set_config_rsp(out: &mut [u8; CONTROL_LIMIT], gid: u8, oid: u8, m: &[u8]) -> Note
    requires { param_at m.now (count_in m.now) ≤ control_limit }
    ensures { Put out.old (record { gid = gid; oid = oid; payload = set_rsp m.now }) result out.new }
{
    let len = set::set_rsp(out, m);
    Note { gid, oid, len }
}

// CORE_GET_CONFIG_RSP (003, Table 12).
fn get_config_rsp(
    out: &mut [u8; CONTROL_LIMIT],
    gid: u8,
    oid: u8,
    b: &[u8; CONFIG_SIZE],
    m: &[u8],
) -> Note
    ensures { Put out.old (record { gid = gid; oid = oid; payload = get_rsp b.now m.now }) result out.new }
{
    let len = get::get_rsp(out, b, m);
    Note { gid, oid, len }
}

// The response to a command: its GID and OID, and what the verdict is answered with. b has the values, m is the command's payload.
#[tactic(auto, unfolding(crate::specs::Layout::response_of))]
pub fn response(
    out: &mut [u8; CONTROL_LIMIT],
    gid: u8,
    oid: u8,
    p: Profile,
    b: &[u8; CONFIG_SIZE],
    m: &[u8],
    v: Result<Verdict, Status>,
) -> Note
    requires { v ≡ Ok Verdict.SetsConfig → param_at m.now (count_in m.now) ≤ control_limit }
    ensures { Put out.old (response_message gid oid p b.now m.now v) result out.new }
{
    match v {
        Ok(Verdict::Initialises) => init_rsp(out, gid, oid, p.control),
        Ok(Verdict::Opens(id, t)) => create_rsp(out, gid, oid, t, id),
        Ok(Verdict::SetsConfig) => set_config_rsp(out, gid, oid, m),
        Ok(Verdict::GetsConfig) => get_config_rsp(out, gid, oid, b, m),
        Ok(_) => status(out, gid, oid, names::STATUS_OK),
        Err(s) => status(out, gid, oid, s.into()),
    }
}

// CORE_RESET_NTF (003, Table 5).
fn reset_ntf(out: &mut [u8; CONTROL_LIMIT], kind: u8) -> Note
    ensures { Put out.old (record { gid = gid_core; oid = oid_reset; payload = reset_ntf kind }) result out.new }
{
    let mut o = [0x00; fields::RESET_LENGTH];
    o[fields::RESET_TRIGGER] = 0x02;
    o[fields::RESET_CONFIG] = kind;
    o[fields::RESET_VERSION] = 0x20;
    emit(out, names::GID_CORE, names::OID_RESET, &o)
}

// RF_DEACTIVATE_NTF (003, Tables 79 to 81).
pub fn deactivate_ntf(out: &mut [u8; CONTROL_LIMIT], kind: u8, reason: u8) -> Note
    ensures { Put out.old (record { gid = gid_rf; oid = oid_deactivate; payload = deactivate_ntf kind reason }) result out.new }
{
    let mut o = [0x00; fields::DEACTIVATE_LENGTH];
    o[fields::DEACTIVATE_TYPE] = kind;
    o[fields::DEACTIVATE_REASON] = reason;
    emit(out, names::GID_RF, names::OID_DEACTIVATE, &o)
}

// The notification that follows a verdict's response, where there is one.
#[tactic(auto, using(crate::proofs::Messages::put_nothing, crate::proofs::Messages::put_some), unfolding(crate::specs::Layout::notice_message))]
pub fn notice(out: &mut [u8; CONTROL_LIMIT], v: Result<Verdict, Status>) -> Option<Note>
    ensures { MayPut out.old (notice_message v) result out.new }
{
    match v {
        Ok(Verdict::Resets(kind)) => Some(reset_ntf(out, kind)),
        Ok(Verdict::Deactivates(kind, _)) => Some(deactivate_ntf(out, kind, names::HOST_REQUEST)),
        Ok(_) | Err(_) => None,
    }
}

// Writes an entry of a credit notice at an index of the buffer, where credits are owed. The index after it.
#[tactic(auto, using(octets::proofs::Octets::splice_nil))]
fn entry(out: &mut [u8], at: usize, conn: u8, n: u8) -> usize
    requires { at + 2 ≤ length out.old }
    ensures octets { out.new ≡ splice out.old at (pick (eqb n 0) [] (conn ∷ n ∷ [])) }
    ensures next { result ≡ at + length (pick (eqb n 0) [] (conn ∷ n ∷ [])) }
{
    if n == 0 {
        return at;
    }
    octets::put(out, at, &[conn, n]);
    at + fields::ENTRY_SIZE
}

// CORE_CONN_CREDITS_NTF (003, Table 18): all that is owed, in ascending order of the Conn IDs.
pub fn credits_ntf(out: &mut [u8; CONTROL_LIMIT], conns: [Counts; 5]) -> Note
    ensures { Put out.old (credits_message conns) result out.new }
{
    let mut at: usize = fields::ENTRY_CONN;
    for i in 0..5 {
        at = entry(out, at, conn_of(i), owing(conns[i].controller));
    }
    out[fields::ENTRY_COUNT] = (at / fields::ENTRY_SIZE) as u8;
    Note {
        gid: names::GID_CORE,
        oid: names::OID_CONN_CREDITS,
        len: at,
    }
}

// RF_DISCOVER_NTF (003, Table 66).
pub fn discover_ntf(out: &mut [u8; CONTROL_LIMIT], a: Activation, kind: u8, params: &[u8]) -> Note
    requires { 5 + length params.now ≤ control_limit }
    ensures { Put out.old (record { gid = gid_rf; oid = oid_discover; payload = discover_ntf a kind params.now }) result out.new }
{
    let mut head = [0x00; fields::FOUND_TYPE];
    head[fields::FOUND_ID] = a.id;
    head[fields::FOUND_PROTOCOL] = a.protocol;
    head[fields::FOUND_MODE] = a.mode;
    head[fields::FOUND_PARAMS_LENGTH] = params.len() as u8;
    emit_around(
        out,
        names::GID_RF,
        names::OID_DISCOVER,
        &head,
        params,
        &[kind],
    )
}

// RF_INTF_ACTIVATED_NTF (003, Table 78).
pub fn activated_ntf(out: &mut [u8; CONTROL_LIMIT], a: Activation, t: Terms, params: &[u8]) -> Note
    requires { 11 + length params.now ≤ control_limit }
    ensures { Put out.old (record { gid = gid_rf; oid = oid_activated; payload = activated_ntf a t params.now }) result out.new }
{
    let mut head = [0x00; fields::ACTIVATED_EXCHANGE];
    head[fields::ACTIVATED_ID] = a.id;
    head[fields::ACTIVATED_INTERFACE] = names::FRAME_INTERFACE;
    head[fields::ACTIVATED_PROTOCOL] = a.protocol;
    head[fields::ACTIVATED_MODE] = a.mode;
    head[fields::ACTIVATED_PAYLOAD] = t.payload;
    head[fields::ACTIVATED_CREDITS] = t.credits;
    head[fields::ACTIVATED_PARAMS_LENGTH] = params.len() as u8;
    let tail = [a.mode, 0x00, 0x00, 0x00];
    emit_around(
        out,
        names::GID_RF,
        names::OID_ACTIVATED,
        &head,
        params,
        &tail,
    )
}

// CORE_GENERIC_ERROR_NTF (003, Table 19): the target's activation failed.
pub fn generic_error_ntf(out: &mut [u8; CONTROL_LIMIT]) -> Note
    ensures { Put out.old (record { gid = gid_core; oid = oid_generic_error; payload = generic_error_ntf }) result out.new }
{
    emit(
        out,
        names::GID_CORE,
        names::OID_GENERIC_ERROR,
        &[names::ACTIVATION_FAILED],
    )
}

// The table of the configuration parameters (003, Tables 24 to 32; IDs by Table 138), and which values a parameter may have.
ghost use Rattle.std.specs.Prelude.{◌≡◌, ◌<◌, length, find, eqb};
ghost use Rattle.config.specs.Table.{row_count, row_at, row_of, allowed_by, all_allowed, acceptable, acceptable_by};

// The octets that a value may have: a range, or the bit rates of Table 132 that are not RFU.
#[derive(Clone, Copy)]
pub enum Values {
    Range(u8, u8),
    BitRates,
}

// A parameter: where its value stands among the octets of all, its least and greatest length, its octet by default.
#[derive(Clone, Copy)]
pub struct Row {
    pub id: u8,
    pub at: usize,
    pub least: usize,
    pub most: usize,
    pub default: u8,
    pub values: Values,
}

pub const ROWS: usize = 15;

pub const CONFIG_SIZE: usize = 30;

const TABLE: [Row; ROWS] = [
    // PA_BAIL_OUT
    Row {
        id: 0x08,
        at: 0,
        least: 1,
        most: 1,
        default: 0x00,
        values: Values::Range(0x00, 0x01),
    },
    // PA_DEVICES_LIMIT
    Row {
        id: 0x09,
        at: 1,
        least: 1,
        most: 1,
        default: 0x08,
        values: Values::Range(0x00, 0xFF),
    },
    // PB_AFI
    Row {
        id: 0x10,
        at: 2,
        least: 1,
        most: 1,
        default: 0x00,
        values: Values::Range(0x00, 0xFF),
    },
    // PB_BAIL_OUT
    Row {
        id: 0x11,
        at: 3,
        least: 1,
        most: 1,
        default: 0x00,
        values: Values::Range(0x00, 0x01),
    },
    // PB_SENSB_REQ_PARAM
    Row {
        id: 0x13,
        at: 4,
        least: 1,
        most: 1,
        default: 0x00,
        values: Values::Range(0x00, 0xFF),
    },
    // PB_DEVICES_LIMIT
    Row {
        id: 0x14,
        at: 5,
        least: 1,
        most: 1,
        default: 0x08,
        values: Values::Range(0x00, 0xFF),
    },
    // PF_BIT_RATE
    Row {
        id: 0x18,
        at: 6,
        least: 1,
        most: 1,
        default: 0x01,
        values: Values::Range(0x01, 0x02),
    },
    // PF_BAIL_OUT
    Row {
        id: 0x19,
        at: 7,
        least: 1,
        most: 1,
        default: 0x00,
        values: Values::Range(0x00, 0x01),
    },
    // PF_DEVICES_LIMIT
    Row {
        id: 0x1A,
        at: 8,
        least: 1,
        most: 1,
        default: 0x08,
        values: Values::Range(0x00, 0xFF),
    },
    // PI_B_H_INFO
    Row {
        id: 0x20,
        at: 9,
        least: 0,
        most: 15,
        default: 0x00,
        values: Values::Range(0x00, 0xFF),
    },
    // PI_BIT_RATE
    Row {
        id: 0x21,
        at: 25,
        least: 1,
        most: 1,
        default: 0x00,
        values: Values::Range(0x00, 0x03),
    },
    // PN_NFC_DEP_PSL
    Row {
        id: 0x28,
        at: 26,
        least: 1,
        most: 1,
        default: 0x00,
        values: Values::Range(0x00, 0x01),
    },
    // PN_ATR_REQ_CONFIG
    Row {
        id: 0x2A,
        at: 27,
        least: 1,
        most: 1,
        default: 0x30,
        values: Values::Range(0x00, 0xFF),
    },
    // PV_DEVICES_LIMIT
    Row {
        id: 0x2F,
        at: 28,
        least: 1,
        most: 1,
        default: 0x08,
        values: Values::Range(0x00, 0xFF),
    },
    // PACM_BIT_RATE
    Row {
        id: 0x68,
        at: 29,
        least: 1,
        most: 1,
        default: 0x01,
        values: Values::BitRates,
    },
];

// A parameter by its place in the table.
pub fn row_at(i: usize) -> Row
    requires { i < row_count }
    ensures { result ≡ row_at i }
{
    TABLE[i]
}

// The first of some rows with this ID.
fn row_in(rows: &[Row], id: u8) -> Option<Row>
    ensures { result ≡ find (λ r. eqb r.id id) rows.now }
{
    rows.iter().copied().find(|r| r.id == id)
}

// The parameter with this ID, if the controller knows it.
#[tactic(auto, unfolding(crate::specs::Table::row_of, crate::specs::Table::table))]
pub fn row_of(id: u8) -> Option<Row>
    ensures { result ≡ row_of id }
{
    row_in(&TABLE, id)
}

// Whether a value may have this octet.
pub fn allowed_by(values: Values, x: u8) -> bool
    ensures { result ≡ allowed_by values x }
{
    match values {
        Values::Range(low, high) => (low..=high).contains(&x),
        Values::BitRates => matches!(x, 0x00..=0x06 | 0x20 | 0x80..=0xFE),
    }
}

// Whether a value may have all these octets. A `for`: with `.all(..)`, `returns` stayed open.
pub fn all_allowed(values: Values, v: &[u8]) -> bool
    ensures { result ≡ all_allowed values v.now (length v.now) }
{
    let mut all = true;
    for x in v {
        all = all & allowed_by(values, *x);
    }
    all
}

// Whether a parameter may have this value.
pub fn acceptable(r: Row, v: &[u8]) -> bool
    ensures { result ≡ acceptable r v.now }
{
    let all = all_allowed(r.values, v);
    (r.least <= v.len()) & (v.len() <= r.most) & all
}

// Whether the parameter with this ID may have this value; one that is not known has none.
pub(crate) fn acceptable_by(id: u8, v: &[u8]) -> bool
    ensures { result ≡ acceptable_by (row_of id) v.now }
{
    match row_of(id) {
        Some(r) => acceptable(r, v),
        None => false,
    }
}

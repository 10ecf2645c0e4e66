// 20: whether words are a list of open charges.
ghost use Rattle.std.specs.Prelude.{◌≡◌, length};
ghost use Rattle.signature.specs.Lists.{is_some};
ghost use Rattle.charges.specs.Limits.{record_length};
ghost use Rattle.charges.specs.Charge.{read_record, read_charges};

use store::layout::zeros;

// The records of a list at most, the words of each, and where in it the plan, the booking's length and the booking stand.
pub const CHARGES: usize = 48;

pub const RECORD: usize = 64;

pub const PLAN: usize = 1;

pub const LENGTH: usize = 2;

pub const BOOKING: usize = 3;

// The words that are left for a booking.
pub const ROOM: usize = RECORD - BOOKING;

// Whether the booking has 1 to 61 words, with zeros behind it.
fn is_record(w: &[u16]) -> bool
    requires { length w.now ≡ record_length }
    ensures { result ≡ is_some (read_record w.now) }
{
    let n = w[LENGTH] as usize;
    if n == 0 {
        return false;
    }
    if ROOM < n {
        return false;
    }
    zeros(&w[BOOKING + n..])
}

pub fn well_formed(charges: &[u16]) -> bool
    ensures { result ≡ is_some (read_charges charges.now) }
{
    if CHARGES * RECORD < charges.len() {
        return false;
    }
    for record in charges.chunks(RECORD) {
        if record.len() < RECORD {
            return false;
        }
        if !is_record(record) {
            return false;
        }
    }
    true
}

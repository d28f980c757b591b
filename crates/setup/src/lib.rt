// Setting a receiver up in a lent state (RULES 3.3 to 3.5).
#![tactic(auto)]

pub mod laws;

ghost use Rattle.std.specs.Prelude.{◌≡◌, ◌++◌, ◌+◌, ◌*◌, ◌-◌, ◌/◌, ◌%◌, ◌≤◌, ◌<◌, length, drop, replicate};
ghost use Rattle.bits.specs.Tabulate.{tabulate};
ghost use Rattle.rules.specs.Limits.{subscriptions_max, subscription_record};
ghost use Rattle.rules.specs.Setup.{type_fits, unlike, all_fit};
ghost use Rattle.setup.specs.Setup.{record_at, given, state_of, after_setup, returned};
ghost use Rattle.setup.specs.inside.Record.{Keyed, written};
ghost use Rattle.state.specs.Layout.{size};

use answers::SetupError;
use blocks::set::ALL;
use rules::limits::{SUBSCRIPTION_RECORD, SUBSCRIPTIONS};
use state::layout::{FREE_AT, OWN_AT, SIZE, SUBSCRIPTION_COUNT_AT};

// The kind and type of record j: its first five bytes as one number.
fn key(records: &[u8], j: usize) -> u64
    requires { j * subscription_record + subscription_record ≤ length records.now }
    ensures { Keyed (record_at records.now j) result }
{
    bits::le::get_at(records, j * SUBSCRIPTION_RECORD, 5)
}

// The same kind and type as the state has them.
fn state_key(k: u64) -> u64
    ensures { result ≡ k % 256 * 65536 + k / 256 }
{
    k % 256 * 65536 + k / 256
}

// The kind and the type are in range.
fn type_fits(k: u64) -> bool
    ensures { result ≡ type_fits (k % 256) (k / 256) }
{
    let kind = k % 256;
    let id = k / 256;
    if 1 < kind {
        return false;
    }
    if kind == 0 {
        return id < 65536;
    }
    id < 256
}

// No record after j, of n, has its kind and type. Each is read anew: a table of the keys would take 256 bytes of stack.
fn key_is_new(records: &[u8], j: usize, n: usize) -> bool
    requires { (j < n) × (n * subscription_record ≤ length records.now) }
    ensures { result ≡ unlike (record_at records.now j) (tabulate (record_at records.now) (j + 1) (n - (j + 1))) }
{
    let k = key(records, j);
    for i in j + 1..n {
        if key(records, i) == k {
            return false;
        }
    }
    true
}

// Each of the n records has a kind and a type in range, and no two have the same.
fn all_fit(records: &[u8], n: usize) -> bool
    requires { n * subscription_record ≤ length records.now }
    ensures { result ≡ all_fit (tabulate (record_at records.now) 0 n) }
{
    for j in 0..n {
        if !type_fits(key(records, j)) {
            return false;
        }
        if !key_is_new(records, j, n) {
            return false;
        }
    }
    true
}

// Zeros in the first n bytes.
fn clear(state: &mut [u8], n: usize)
    requires { n ≤ length state.old }
    ensures { state.new ≡ replicate n 0 ++ drop n state.old }
{
    state[..n].fill(0);
}

// Subscription j, from record j.
fn put(state: &mut [u8], records: &[u8], j: usize)
    requires { ((size ≤ length state.old) × (j < subscriptions_max)) × (j * subscription_record + subscription_record ≤ length records.now) }
    ensures { state.new ≡ written state.old j (record_at records.now j) }
{
    let k = key(records, j);
    let signature = bits::le::get_at(records, j * SUBSCRIPTION_RECORD + 5, 8);
    subscriptions::put(state, j, state_key(k), signature);
}

// The whole layout, from n records.
fn write(state: &mut [u8], own: u32, records: &[u8], n: usize)
    requires { ((size ≤ length state.old) × (own < 128)) × ((n ≤ subscriptions_max) × (n ≡ length records.now / subscription_record)) }
    ensures { state.new ≡ state_of (given own records.now) ++ drop size state.old }
{
    clear(state, SIZE);
    bits::le::put_at(state, FREE_AT, 8, ALL);
    state[OWN_AT] = own as u8;
    state[SUBSCRIPTION_COUNT_AT] = n as u8;
    for j in 0..n {
        put(state, records, j);
    }
}

// Sets a receiver up with its own node ID (0: none yet) and subscriptions: records of 13 bytes, the kind (0 message, 1 service), the
// type ID (4, low byte first) and the signature (8, low byte first).
pub fn setup(state: &mut [u8], own: u32, subscriptions: &[u8]) -> Result<(), SetupError>
    ensures { returned result state.new ≡ after_setup state.old own subscriptions.now }
{
    let len = subscriptions.len();
    let n = len / SUBSCRIPTION_RECORD;
    if state.len() < SIZE {
        return Err(SetupError::Short);
    }
    if 0 < len % SUBSCRIPTION_RECORD {
        return Err(SetupError::Unacceptable);
    }
    if 127 < own {
        return Err(SetupError::Unacceptable);
    }
    if SUBSCRIPTIONS < n {
        return Err(SetupError::Unacceptable);
    }
    if all_fit(subscriptions, n) {
        write(state, own, subscriptions, n);
        return Ok(());
    }
    Err(SetupError::Unacceptable)
}

//! The sorted list of rows: where a pair has its row, and how delays and rows are put there.

ghost use Rattle.std.specs.Prelude.{◌≡◌, ◌<◌, ◌≤◌, ◌+◌, ◌*◌, ◌^◌, ◌⊎◌, ℕ, length, slice_index_or, insert, slice_set, MatchResult, IfOk, OnOk, OnErr, vec_len, vec_capacity};
ghost use Rattle.ds_base.specs.Times.{hour};
ghost use Rattle.ds_base.specs.declared.profile_row.ProfileRow.{ProfileRow};
ghost use Rattle.profiles.specs.Delays.{delays, delay_between, times_between};
ghost use Rattle.profiles.specs.Rows.{joined, IsSound, count_of};
ghost use Rattle.profiles.specs.Put.{AreKept, CanCount, CanJoin, single, put, put_all, count_all, HasRoom, PutsAt, InsertsAt};
ghost use Rattle.ds_base.specs.Order.{InStampOrder};

use crate::row::{count_delay, join, single_row};
use ds_base::{OutOfMemory, ProfileRow, SummaryList};

// How many pairs of captures there are.
const PAIRS: usize = 4096;

// The number of a pair among all pairs.
fn number_of(from: u32, to: u32) -> u32
    requires from_below { from < 64 }
    requires to_below { to < 64 }
    ensures { result ≡ from * 64 + to }
{
    from * 64 + to
}

// Where the row of a pair stands, or where it is to be put.
fn find(rows: &[ProfileRow], number: u32) -> Result<usize, usize>
    requires kept { AreKept rows.now }
    ensures found { MatchResult result (PutsAt number rows.now) (InsertsAt number rows.now) }
{
    let mut low = 0;
    let mut high = rows.len();
    while low < high {
        let middle = low + (high - low) / 2;
        let row = &rows[middle];
        let here = number_of(row.from, row.to);
        if here == number {
            return Ok(middle);
        }
        if here < number {
            low = middle + 1;
        } else {
            high = middle;
        }
    }
    Err(low)
}

// Makes room for the rows of `more` further delays. There are never more rows than pairs.
pub(crate) fn make_room(rows: &mut Vec<ProfileRow>, more: u64) -> Result<(), OutOfMemory>
    requires kept { AreKept rows.old.items }
    ensures items { rows.new.items ≡ rows.old.items }
    ensures room { OnOk result (HasRoom (vec_len rows.new) (vec_capacity rows.new) more) }
{
    let lacking = PAIRS - rows.len();
    match rows.reserve(lacking.min(more as usize)) {
        Ok(()) => Ok(()),
        Err(_) => Err(OutOfMemory),
    }
}

// Puts a row that is not there yet at a place. There is room.
fn insert_row(rows: &mut Vec<ProfileRow>, place: usize, row: ProfileRow)
    requires place { place ≤ vec_len rows.old }
    requires room { vec_len rows.old < vec_capacity rows.old }
    ensures items { rows.new.items ≡ insert rows.old.items place row }
    ensures capacity { vec_capacity rows.old ≤ vec_capacity rows.new }
{
    match rows.insert(place, row) {
        Ok(()) => {}
        Err(_) => unreachable!(),
    }
}

// Counts one delay.
fn count(rows: &mut Vec<ProfileRow>, from: u32, to: u32, time: u64)
    requires kept { AreKept rows.old.items }
    requires from_below { from < 64 }
    requires to_below { to < 64 }
    requires hour { time ≤ hour }
    requires few { count_of from to rows.old.items + 1 < 2 ^ 55 }
    requires room { HasRoom (vec_len rows.old) (vec_capacity rows.old) 1 }
    ensures items { rows.new.items ≡ put (single (record { from = from; to = to; time = time })) rows.old.items }
    ensures capacity { vec_capacity rows.old ≤ vec_capacity rows.new }
    ensures len { vec_len rows.new ≤ vec_len rows.old + 1 }
{
    match find(rows, number_of(from, to)) {
        Ok(place) => count_delay(&mut rows[place], time),
        Err(place) => insert_row(rows, place, single_row(from, to, time)),
    }
}

// Counts each delay between neighbouring members.
pub(crate) fn count_group(rows: &mut Vec<ProfileRow>, members: &SummaryList)
    requires not_empty { 0 < length members.now.items }
    requires ordered { InStampOrder members.now.items }
    requires can { CanCount (delays members.now.items) rows.old.items }
    requires room { HasRoom (vec_len rows.old) (vec_capacity rows.old) (length members.now.items) }
    ensures items { rows.new.items ≡ count_all (delays members.now.items) rows.old.items }
    ensures kept { AreKept rows.new.items }
{
    let last = members.len() - 1;
    for i in 0..last {
        let one = members.get(i).at;
        let next = members.get(i + 1).at;
        count(rows, one.capture, next.capture, next.time - one.time);
    }
}

// Joins one row to that of its pair.
pub(crate) fn put_row(rows: &mut Vec<ProfileRow>, row: &ProfileRow)
    requires kept { AreKept rows.old.items }
    requires sound { IsSound row.now }
    requires width { length row.now.classes ≡ 64 }
    requires few { count_of row.now.from row.now.to rows.old.items + row.now.count < 2 ^ 55 }
    requires room { HasRoom (vec_len rows.old) (vec_capacity rows.old) 1 }
    ensures items { rows.new.items ≡ put row.now rows.old.items }
    ensures capacity { vec_capacity rows.old ≤ vec_capacity rows.new }
    ensures len { vec_len rows.new ≤ vec_len rows.old + 1 }
{
    match find(rows, number_of(row.from, row.to)) {
        Ok(place) => join(&mut rows[place], row),
        Err(place) => insert_row(rows, place, *row),
    }
}

// Joins each of these rows to that of its pair.
pub(crate) fn put_rows(rows: &mut Vec<ProfileRow>, more: &[ProfileRow])
    requires can { CanJoin more.now rows.old.items }
    requires room { HasRoom (vec_len rows.old) (vec_capacity rows.old) (length more.now) }
    ensures items { rows.new.items ≡ put_all more.now rows.old.items }
    ensures kept { AreKept rows.new.items }
{
    for i in 0..more.len() {
        put_row(rows, &more[i]);
    }
}

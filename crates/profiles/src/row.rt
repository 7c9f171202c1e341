//! One row: that of a single delay, and how two are joined.

ghost use Rattle.std.specs.Prelude.{◌≡◌, ◌<◌, ◌≤◌, ◌+◌, ◌*◌, ◌^◌, length, sum};
ghost use Rattle.ds_base.specs.Times.{hour};
ghost use Rattle.profiles.specs.Rows.{joined, added, class_of, IsSound};
ghost use Rattle.profiles.specs.Put.{single};

use ds_base::ProfileRow;

// The class of a time: the least k with the time below 2^k, which is how many binary digits it has.
fn class_number(time: u64) -> usize
    requires hour { time ≤ hour }
    ensures class { result ≡ class_of time }
    ensures few { result < 64 }
{
    (64 - time.leading_zeros()) as usize
}

// The row of one delay.
pub(crate) fn single_row(from: u32, to: u32, time: u64) -> ProfileRow
    requires hour { time ≤ hour }
    ensures { result ≡ single (record { from = from; to = to; time = time }) }
{
    let mut classes = [0; 64];
    classes[class_number(time)] = 1;
    ProfileRow {
        from,
        to,
        count: 1,
        sum: u128::from(time),
        least: time,
        greatest: time,
        classes,
    }
}

// Counts one more delay of the row's pair.
pub(crate) fn count_delay(row: &mut ProfileRow, time: u64)
    requires hour { time ≤ hour }
    requires sound { IsSound row.old }
    requires width { length row.old.classes ≡ 64 }
    ensures { row.new ≡ joined row.old (single (record { from = row.old.from; to = row.old.to; time = time })) }
{
    row.count += 1;
    row.sum += u128::from(time);
    row.least = row.least.min(time);
    row.greatest = row.greatest.max(time);
    row.classes[class_number(time)] += 1;
}

// Joins another row of the same pair to a row.
pub(crate) fn join(row: &mut ProfileRow, more: &ProfileRow)
    requires sound { IsSound row.old }
    requires more_sound { IsSound more.now }
    requires width { length row.old.classes ≡ 64 }
    requires more_width { length more.now.classes ≡ 64 }
    ensures { row.new ≡ joined row.old more.now }
{
    row.count += more.count;
    row.sum += more.sum;
    row.least = row.least.min(more.least);
    row.greatest = row.greatest.max(more.greatest);
    add_classes(&mut row.classes, &more.classes);
}

// Adds each class of `more` to that of `classes`.
fn add_classes(classes: &mut [u64; 64], more: &[u64; 64])
    requires few { sum classes.old < 2 ^ 55 }
    requires more_few { sum more.now < 2 ^ 55 }
    ensures { classes.new ≡ added classes.old more.now }
{
    for k in 0..64 {
        classes[k] += more[k];
    }
}

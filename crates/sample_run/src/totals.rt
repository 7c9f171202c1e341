//! What is told of a report: how many groups it has, and its hash.
ghost use Rattle.std.specs.Prelude.{◌≡◌, true};
ghost use Rattle.ds_base.specs.Keys.{fnv};
ghost use Rattle.sample_run.specs.Starts.{lines_with};

/// The hash of no bytes, by FNV-1a of 64 bits.
const BASIS: u64 = 14_695_981_039_346_656_037;

/// By what FNV-1a of 64 bits multiplies.
const PRIME: u64 = 1_099_511_628_211;

/// The hash of bytes, by FNV-1a of 64 bits.
pub(crate) fn hash(bytes: &[u8]) -> u64
    ensures { result ≡ fnv bytes.now }
{
    let mut hash = BASIS;
    for byte in bytes {
        hash = (hash ^ u64::from(*byte)).wrapping_mul(PRIME);
    }
    hash
}

/// How many lines of a report begin with `G`: those of its groups, and no others.
pub(crate) fn group_lines(report: &[u8]) -> u64
    ensures { result ≡ lines_with 71 true report.now }
{
    let mut lines = 0;
    let mut is_start = true;
    for byte in report {
        if is_start && *byte == b'G' {
            lines += 1;
        }
        is_start = *byte == b'\n';
    }
    lines
}

//! Samples against those that another program makes from the same rules, and packets byte by byte.

use crate::make;
use crate::packet::put_packet;
use crate::sighting::Sighting;
use ds_base::FileList;
use std::alloc::Global;
use std::test::Fail;

// The length and the hash (FNV-1a of 64 bits) of each file of the samples of 7, of 0 and of the last number.
static SEVENTH: [(usize, u64); 8] = [
    (435_024, 0xdf6c_31e2_9502_58f5),
    (646_486, 0xc142_e3a6_1cb7_5a59),
    (818_124, 0x0a54_6a10_b56f_e73e),
    (437_344, 0x6bfb_9cfd_df5a_3f27),
    (646_228, 0x6014_566c_894b_c747),
    (806_460, 0x7774_6501_580c_f2ab),
    (430_500, 0x3af3_9102_c571_61fa),
    (638_402, 0x9944_6773_9fd8_0ce2),
];

static FIRST: [(usize, u64); 8] = [
    (431_428, 0x78c2_ee0d_f7ce_ca5d),
    (638_144, 0x5621_9d77_c244_f825),
    (804_840, 0x446f_15d5_81e3_b366),
    (440_360, 0x8244_74ba_5419_f6e2),
    (651_302, 0x63b8_d8b5_9d08_960b),
    (810_024, 0xcebe_fff9_7da6_e207),
    (438_272, 0x7b7b_3309_7305_b079),
    (635_220, 0x32a7_90c2_34df_7267),
];

static LAST: [(usize, u64); 8] = [
    (432_762, 0xb9b4_6bab_90ef_d4df),
    (654_226, 0xf561_c62f_10da_f3c1),
    (808_512, 0x1318_53ca_54b1_aba2),
    (434_676, 0x3f85_cbb0_f479_4fe7),
    (640_208, 0x6874_62c4_95df_0918),
    (810_240, 0xaaaa_64c0_28d6_0439),
    (439_606, 0xaba8_fac1_8e3e_c504),
    (642_100, 0xfa2c_09d2_c3c4_3a60),
];

static NAMES: [&str; 8] = ["s0", "s1", "s2", "s3", "s4", "s5", "s6", "s7"];

// Packet 19,999 as capture points 6, 4 and 5 see it with the TTL 61, in hexadecimal.
static PACKETS: [(u32, &str); 3] = [
    (
        6,
        "02000000000202000000000108004500001c4e1f00003d1100000a0000010a00000204d2003500080000",
    ),
    (
        4,
        "02000000000402000000000308004500003800010000402f00000a0100010a01000220000800000000044500001c4e1f00003d1100000a0000010a00000204d2003500080000",
    ),
    (
        5,
        "02000000000402000000000308004500004e00010000401100000a0100010a010002c00012b5003a0000080000000000050002000000000202000000000108004500001c4e1f00003d1100000a0000010a00000204d2003500080000",
    ),
];

// The canonical text of the job.
const JOB: &str =
    r#"{"captures":[{"file":"s0","name":"s0"},{"file":"s1","name":"s1"},{"file":"s2","name":"s2"},{"file":"s3","name":"s3"},{"file":"s4","name":"s4"},{"file":"s5","name":"s5"},{"file":"s6","name":"s6"},{"file":"s7","name":"s7"}],"filter":"1","key":["id"],"profile":true,"query":{"hop":"ttl","kind":"loop"},"skew":0,"vars":[{"name":"id","take":["ipv4[-1].id"]},{"name":"ttl","take":["ipv4[-1].ttl"]}],"version":1,"vxlan_port":4789,"window":100000}"#;

// The hash of bytes (FNV-1a of 64 bits).
fn hash(bytes: &[u8]) -> u64 {
    let mut hash: u64 = 14_695_981_039_346_656_037;
    for byte in bytes {
        hash = (hash ^ u64::from(*byte)).wrapping_mul(1_099_511_628_211);
    }
    hash
}

fn hex(alloc: Global, bytes: &[u8]) -> Result<String, Fail> {
    let mut text = String::new(alloc);
    for byte in bytes {
        text.push_str(format!(in alloc; "{byte:02x}")?.as_str())?;
    }
    Ok(text)
}

// Whether the files are those that are expected.
fn are_files(files: &FileList, expected: &[(usize, u64); 8]) -> bool {
    let mut same = files.len() == 8;
    for k in 0..files.len().min(8) {
        let file = files.get(k);
        let bytes = file.bytes.as_slice();
        let (len, hashed) = expected[k as usize];
        same = same && file.name.as_str() == NAMES[k as usize];
        same = same && bytes.len() == len && hash(bytes) == hashed;
    }
    same
}

// Whether the sample of a number has so many records and these files.
fn is_made(
    alloc: Global,
    number: u64,
    records: u64,
    files: &[(usize, u64); 8],
) -> Result<bool, Fail> {
    let sample = make(alloc, number).ok().ok_or("no memory")?;
    Ok(sample.records == records && are_files(&sample.files, files))
}

#[test]
fn one_number_gives_the_same_bytes(rt: HostRuntime) -> Result<(), Fail> {
    assert!(rt; is_made(rt.alloc(), 7, 59_958, &SEVENTH)?);
    assert!(rt; is_made(rt.alloc(), 0, 59_917, &FIRST)?);
    assert!(rt; is_made(rt.alloc(), u64::MAX, 60_039, &LAST)?);
    Ok(())
}

#[test]
fn packets_are_bare_or_in_a_tunnel(rt: HostRuntime) -> Result<(), Fail> {
    for (capture, expected) in &PACKETS {
        let sighting = Sighting {
            capture: *capture,
            time: 0,
            id: 19_999,
            ttl: 61,
        };
        let mut bytes = Vec::new(rt.alloc());
        put_packet(&mut bytes, &sighting).ok().ok_or("no memory")?;
        let text = hex(rt.alloc(), bytes.as_slice())?;
        assert_eq!(rt; text.as_str(), *expected, "at {capture}");
    }
    Ok(())
}

#[test]
fn the_job_asks_for_loops_and_delays(rt: HostRuntime) -> Result<(), Fail> {
    let sample = make(rt.alloc(), 7).ok().ok_or("no memory")?;
    let text = sample.job.print(rt.alloc()).ok().ok_or("no memory")?;
    assert_eq!(rt; text.as_str(), JOB);
    Ok(())
}

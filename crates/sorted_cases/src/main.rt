// Sorted images, good and bad, one case a line: what the check answers.
#![tactic(auto)]

use anyhow::bail;
use frame_map::{FrameMap, entries};
use refusal::Refused;
use sorted_map::{SortedMap, check_sorted};

// Point 20, size 3, r9 saved in slot 1, pointer register r0, r8 untouched.
const GOOD: [u32; 5] = [1_310_723, 0, 65_537, 256, 0];

// Single rows, each with what is wrong with it.
const ROWS: [(&str, [u32; 5]); 20] = [
    ("a good row", GOOD),
    ("point 0", [3, 0, 0, 0, 0]),
    ("size 0", [0x0014_0000, 0, 0, 0, 0]),
    ("size 1", [0x0014_0001, 0, 0, 0, 0]),
    ("size 32", [0x0014_0020, 0xffff_fffe, 0, 0, 0]),
    ("size 33", [0x0014_0021, 0, 0, 0, 0]),
    (
        "size 259, which is 3 in its low byte",
        [0x0014_0103, 0, 0, 0, 0],
    ),
    (
        "word 0 of the frame as a pointer slot",
        [0x0014_0003, 1, 0, 0, 0],
    ),
    ("a pointer slot at the size", [0x0014_0003, 8, 0, 0, 0]),
    ("pointer slots up to size - 1", [0x0014_0003, 6, 0, 0, 0]),
    ("a saved slot at the size", [0x0014_0003, 0, 0, 3, 0]),
    (
        "a saved slot for two registers",
        [0x0014_0003, 0, 0, 0x0000_0101, 0],
    ),
    (
        "a saved slot for r8 and r15",
        [0x0014_0003, 0, 0, 1, 0x0100_0000],
    ),
    (
        "a saved slot that is a pointer slot",
        [0x0014_0003, 2, 0, 0x0100, 0],
    ),
    (
        "saved slots in r11 and r12",
        [0x0014_0003, 0, 0, 0x0200_0000, 1],
    ),
    (
        "all registers hold pointers",
        [0x0014_0003, 0, 0xffff, 0, 0],
    ),
    (
        "r8 holds a pointer and is untouched",
        [0x0014_0003, 0, 0x0001_0100, 0, 0],
    ),
    (
        "r15 holds a pointer and is untouched",
        [0x0014_0003, 0, 0x0080_8000, 0, 0],
    ),
    (
        "all callee-save registers untouched",
        [0x0014_0003, 0, 0x00ff_00ff, 0, 0],
    ),
    (
        "a bit above the untouched registers",
        [0x0014_0003, 0, 0x0100_0000, 0, 0],
    ),
];

fn show(rt: &HostRuntime, name: &str, image: &[u32]) -> anyhow::Result<()> {
    match check_sorted(image) {
        Ok(rows) => println!(rt; "{name}: {rows} rows")?,
        Err(reason) => println!(rt; "{name}: {}", Refused(reason))?,
    }
    Ok(())
}

// An image of `rows` rows of size 1 at points first, first + step, ..
fn ladder(rt: &HostRuntime, rows: u32, first: u32, step: u32) -> anyhow::Result<Vec<u32>> {
    let mut image = Vec::new(rt.alloc());
    for i in 0..rows {
        let point = first.wrapping_add(step.wrapping_mul(i)) % 65_536;
        image.extend_from_slice(&[point * 65_536 + 1, 0, 0, 0, 0])?;
    }
    Ok(image)
}

fn orders(rt: &HostRuntime) -> anyhow::Result<()> {
    show(rt, "no rows", &[])?;
    let same = ladder(rt, 3, 7, 0)?;
    show(rt, "three rows at one point", same.as_slice())?;
    let falling = ladder(rt, 3, 9, 65_535)?;
    show(rt, "falling points", falling.as_slice())?;
    let full = ladder(rt, 1024, 1, 64)?;
    show(rt, "1,024 rows", full.as_slice())?;
    let many = ladder(rt, 1025, 1, 63)?;
    show(rt, "1,025 rows", many.as_slice())?;
    Ok(())
}

fn cuts(rt: &HostRuntime) -> anyhow::Result<()> {
    let mut full = ladder(rt, 1024, 1, 64)?;
    full.push(0)?;
    show(rt, "1,024 rows and a word", full.as_slice())?;
    let mut two = ladder(rt, 2, 1, 1)?;
    two.push(GOOD[0])?;
    show(rt, "two rows and a word", two.as_slice())?;
    two.extend_from_slice(&GOOD[1..4])?;
    show(rt, "two rows and four words", two.as_slice())?;
    two.push(GOOD[4])?;
    show(rt, "three rows", two.as_slice())
}

// Asks for some points, good and bad.
fn lookups(rt: &HostRuntime) -> anyhow::Result<()> {
    let image = ladder(rt, 1024, 1, 64)?;
    let Ok(mut map) = SortedMap::new(image) else {
        bail!("the ladder is no good image");
    };
    for point in [0u32, 1, 2, 64, 65, 65_473, 65_535, 65_537, 4_294_967_295] {
        let found = map.lookup(point).is_some();
        println!(rt; "point {point}: {found}")?;
    }
    let asked = map.lookups();
    let all = entries(&mut map, rt.alloc())?;
    let rows = all.len();
    let again = map.lookups();
    println!(rt; "{asked} lookups, {rows} rows listed, {again} lookups")?;
    if let Some(last) = all.last() {
        println!(rt; "last: {last}")?;
    }
    Ok(())
}

fn main(rt: HostRuntime) -> anyhow::Result<()> {
    for (name, row) in ROWS {
        show(&rt, name, &row)?;
    }
    orders(&rt)?;
    cuts(&rt)?;
    lookups(&rt)
}

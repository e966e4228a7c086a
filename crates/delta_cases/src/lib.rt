// A row's code byte by byte, written and read.
#![tactic(auto)]

#[cfg(test)]
mod tests {
    use delta_code::Reader;
    use delta_layout::first_before;
    use delta_writer::write_row;
    use frame_map::{Entry, Row};
    use std::test::Fail;

    // Point 10, size 4, pointer slot 1, pointer register r9.
    const ENTRY: Entry = Entry {
        point: 10,
        row: Row {
            size: 4,
            slots: 1 << 1,
            saved: [0; 8],
            registers: 1 << 9,
            untouched: 0,
        },
    };
    // Its code behind the first row's origin.
    const BYTES: [u8; 9] = [0x07, 0x0A, 0x03, 0x02, 0x00, 0x00, 0x00, 0x00, 0x02];

    #[test]
    fn writes_nine_bytes(rt: HostRuntime) {
        let mut out = [0; 9];
        let end = write_row(&mut out, 0, &first_before(), &ENTRY);
        assert!(rt; end == Some(9));
        assert!(rt; out == BYTES);
    }

    #[test]
    fn reads_nine_bytes(rt: HostRuntime) -> Result<(), Fail> {
        let mut reader = Reader::new(&BYTES, 0, 9);
        assert!(rt; reader.next_row(&first_before())? == ENTRY);
        assert!(rt; reader.is_done());
        Ok(())
    }
}

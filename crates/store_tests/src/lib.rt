// Tests of the null store and of the direct-mapped table: rows of 0, 1, 2, 7 and 67 slots.
//
// The expected slots were worked out apart from the program. Modulo 67 the powers of two are all different, so that in a row of
// 67 slots every rotation of a single bit leads to another slot.
#![tactic(auto)]

#[cfg(test)]
mod tests {
    use store::entry::{Entry, Finding, Key};
    use store::interface::Store;
    use store::null::Null;
    use store::table::Table;

    fn entry(a: u64, b: u64, context: u64, floor: u8, finding: Finding) -> Entry {
        Entry {
            key: Key {
                a,
                b,
                context,
                floor,
            },
            finding,
        }
    }

    fn open(a: u64, b: u64, context: u64, floor: u8) -> Entry {
        entry(a, b, context, floor, Finding::Open { pn: 3, dn: 4 })
    }

    fn settled(a: u64, b: u64, context: u64, floor: u8) -> Entry {
        let finding = Finding::Verdict {
            yes: true,
            independent: false,
            best: 7,
        };
        entry(a, b, context, floor, finding)
    }

    // The number of slots with an entry.
    fn filled(row: &[Option<Entry>]) -> usize {
        row.iter().filter(|slot| slot.is_some()).count()
    }

    #[test]
    fn null_shows_nothing(rt: HostRuntime) {
        let mut null = Null;
        let e = open(1, 2, 3, 1);
        assert_eq!(rt; null.probe(e.key), None);
        null.record(e);
        assert_eq!(rt; null.probe(e.key), None);
        null.clear();
        assert_eq!(rt; null.probe(e.key), None);
    }

    #[test]
    fn no_slots(rt: HostRuntime) {
        let mut row: [Option<Entry>; 0] = [];
        let mut table = Table::new(&mut row);
        let e = open(1, 2, 3, 1);
        table.record(e);
        assert_eq!(rt; table.probe(e.key), None);
        table.clear();
        assert_eq!(rt; table.probe(e.key), None);
    }

    #[test]
    fn one_slot_keeps_the_newest(rt: HostRuntime) {
        let mut row = [Some(open(9, 9, 9, 2)); 1];
        let mut table = Table::new(&mut row);
        let e = open(1, 2, 3, 1);
        let f = settled(4, 5, 6, 2);
        assert_eq!(rt; table.probe(open(9, 9, 9, 2).key), None);
        table.record(e);
        assert_eq!(rt; table.probe(e.key), Some(e));
        table.record(f);
        assert_eq!(rt; table.probe(e.key), None);
        assert_eq!(rt; table.probe(f.key), Some(f));
        assert_eq!(rt; row[0], Some(f));
    }

    #[test]
    fn the_same_key_is_overwritten(rt: HostRuntime) {
        let mut row = [None; 2];
        let mut table = Table::new(&mut row);
        table.record(open(1, 2, 3, 1));
        table.record(settled(1, 2, 3, 1));
        assert_eq!(rt;
            table.probe(open(1, 2, 3, 1).key),
            Some(settled(1, 2, 3, 1))
        );
        assert_eq!(rt; filled(&row), 1);
    }

    #[test]
    fn two_slots(rt: HostRuntime) {
        let mut row = [None; 2];
        let mut table = Table::new(&mut row);
        let even = open(12, 0, 0, 0);
        let odd = open(5, 0, 0, 0);
        table.record(even);
        table.record(odd);
        assert_eq!(rt; table.probe(even.key), Some(even));
        assert_eq!(rt; table.probe(odd.key), Some(odd));
        assert_eq!(rt; row[0], Some(even));
        assert_eq!(rt; row[1], Some(odd));
    }

    #[test]
    fn seven_slots_and_a_collision(rt: HostRuntime) {
        let mut row = [None; 7];
        let mut table = Table::new(&mut row);
        let five = open(5, 0, 0, 0);
        let twelve = open(12, 0, 0, 0);
        let eight = settled(9, 0, 0, 1);
        table.record(five);
        table.record(eight);
        assert_eq!(rt; table.probe(twelve.key), None);
        table.record(twelve);
        assert_eq!(rt; table.probe(five.key), None);
        assert_eq!(rt; table.probe(twelve.key), Some(twelve));
        assert_eq!(rt; table.probe(eight.key), Some(eight));
        assert_eq!(rt;
            row,
            [None, Some(eight), None, None, None, Some(twelve), None]
        );
    }

    #[test]
    fn clearing_leaves_no_slot(rt: HostRuntime) {
        let mut row = [None; 7];
        let mut table = Table::new(&mut row);
        table.record(open(0, 0, 0, 0));
        table.record(open(6, 0, 0, 0));
        table.clear();
        assert_eq!(rt; table.probe(open(0, 0, 0, 0).key), None);
        assert_eq!(rt; row, [None; 7]);
    }

    #[test]
    fn every_field_of_the_key_counts(rt: HostRuntime) {
        let mut row = [None; 1];
        let mut table = Table::new(&mut row);
        let e = open(1, 2, 3, 1);
        table.record(e);
        assert_eq!(rt; table.probe(open(0, 2, 3, 1).key), None);
        assert_eq!(rt; table.probe(open(1, 3, 3, 1).key), None);
        assert_eq!(rt; table.probe(open(1, 2, 1, 1).key), None);
        assert_eq!(rt; table.probe(open(1, 2, 3, 2).key), None);
        assert_eq!(rt; table.probe(e.key), Some(e));
    }

    // All ones are the same when rotated: the mixed word is ffff_ffff_ffff_ff00.
    #[test]
    fn all_ones(rt: HostRuntime) {
        let mut row = [None; 7];
        let mut table = Table::new(&mut row);
        let e = settled(u64::MAX, u64::MAX, u64::MAX, 255);
        table.record(e);
        assert_eq!(rt; table.probe(e.key), Some(e));
        assert_eq!(rt; row[5], Some(e));
        assert_eq!(rt; filled(&row), 1);
    }

    // The low bit of b goes to bit 21, that of the context to bit 43; bits that leave at the top come in at the bottom.
    #[test]
    fn rotations(rt: HostRuntime) {
        let mut row = [None; 67];
        let mut table = Table::new(&mut row);
        table.record(open(0, 1, 0, 0));
        table.record(open(0, 0, 1, 0));
        table.record(open(0, 0x800_0000_0000, 0, 0));
        table.record(open(2, 0, 0x20_0000, 0));
        table.record(open(0, 0, 0, 2));
        table.record(open(
            0x0123_4567_89ab_cdef,
            0xfedc_ba98_7654_3210,
            0x0f1e_2d3c_4b5a_6978,
            2,
        ));
        assert_eq!(rt; row[52], Some(open(0, 1, 0, 0)));
        assert_eq!(rt; row[48], Some(open(0, 0, 1, 0)));
        assert_eq!(rt; row[1], Some(open(0, 0x800_0000_0000, 0, 0)));
        assert_eq!(rt; row[3], Some(open(2, 0, 0x20_0000, 0)));
        assert_eq!(rt; row[2], Some(open(0, 0, 0, 2)));
        assert_eq!(rt;
            row[15],
            Some(open(
                0x0123_4567_89ab_cdef,
                0xfedc_ba98_7654_3210,
                0x0f1e_2d3c_4b5a_6978,
                2,
            ))
        );
        assert_eq!(rt; filled(&row), 6);
    }
}

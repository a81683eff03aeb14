// Tests of reading and putting numbers, with bytes worked out by hand.
#![tactic(auto)]

#[cfg(test)]
mod tests {
    use codec::{Number, put_number, read_number};

    fn number(value: u32, end: usize) -> Option<Number> {
        Some(Number { value, end })
    }

    #[test]
    fn reads_numbers(rt: HostRuntime) {
        assert_eq!(rt; read_number(&[0], 0), number(0, 1));
        assert_eq!(rt; read_number(&[0x7f, 0x7f], 0), number(127, 1));
        assert_eq!(rt; read_number(&[0x80, 0x01], 0), number(128, 2));
        assert_eq!(rt; read_number(&[0xac, 0x02], 0), number(300, 2));
        assert_eq!(rt; read_number(&[9, 0xac, 0x02, 9], 1), number(300, 3));
        assert_eq!(rt;
            read_number(&[0xff, 0xff, 0xff, 0xff, 0x0f], 0),
            number(0xffff_ffff, 5)
        );
    }

    #[test]
    fn refuses_what_is_cut_off(rt: HostRuntime) {
        assert_eq!(rt; read_number(&[], 0), None);
        assert_eq!(rt; read_number(&[0x05], 1), None);
        assert_eq!(rt; read_number(&[0x05], 18_446_744_073_709_551_615), None);
        assert_eq!(rt; read_number(&[0x80], 0), None);
        assert_eq!(rt; read_number(&[0xff, 0xff, 0xff, 0xff], 0), None);
    }

    #[test]
    fn refuses_more_than_five_bytes(rt: HostRuntime) {
        assert_eq!(rt; read_number(&[0x80, 0x80, 0x80, 0x80, 0x80, 0x01], 0), None);
        assert_eq!(rt; read_number(&[0x80, 0x80, 0x80, 0x80, 0x80, 0x00], 0), None);
    }

    #[test]
    fn refuses_more_than_32_bits(rt: HostRuntime) {
        assert_eq!(rt; read_number(&[0x80, 0x80, 0x80, 0x80, 0x10], 0), None);
        assert_eq!(rt; read_number(&[0xff, 0xff, 0xff, 0xff, 0x7f], 0), None);
    }

    #[test]
    fn refuses_what_is_not_shortest(rt: HostRuntime) {
        assert_eq!(rt; read_number(&[0x80, 0x00], 0), None);
        assert_eq!(rt; read_number(&[0x81, 0x80, 0x00], 0), None);
        assert_eq!(rt; read_number(&[0xff, 0x00], 0), None);
    }

    #[test]
    fn puts_numbers(rt: HostRuntime) {
        let mut bytes = [7u8; 8];
        assert_eq!(rt; put_number(&mut bytes, 0, 0), Some(1));
        assert_eq!(rt; put_number(&mut bytes, 1, 300), Some(3));
        assert_eq!(rt; bytes, [0, 0xac, 0x02, 7, 7, 7, 7, 7]);
        assert_eq!(rt; put_number(&mut bytes, 3, 0xffff_ffff), Some(8));
        assert_eq!(rt; bytes, [0, 0xac, 0x02, 0xff, 0xff, 0xff, 0xff, 0x0f]);
        assert_eq!(rt; put_number(&mut bytes, 7, 127), Some(8));
        assert_eq!(rt; put_number(&mut bytes, 5, 128), Some(7));
        assert_eq!(rt; bytes, [0, 0xac, 0x02, 0xff, 0xff, 0x80, 0x01, 0x7f]);
    }

    #[test]
    fn puts_nothing_where_it_does_not_fit(rt: HostRuntime) {
        let mut bytes = [7u8; 2];
        assert_eq!(rt; put_number(&mut bytes, 2, 0), None);
        assert_eq!(rt; put_number(&mut bytes, 1, 128), None);
        assert_eq!(rt; put_number(&mut bytes, 0, 16_384), None);
        assert_eq!(rt;
            put_number(&mut bytes, 18_446_744_073_709_551_615, 300),
            None
        );
        assert_eq!(rt; bytes, [7, 7]);
    }
}

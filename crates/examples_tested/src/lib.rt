// Worked examples, run: the numbers are worked out by hand.
#![tactic(auto)]

#[cfg(test)]
mod tests {
    use array::array::Array;
    use backplane::sizes::Sizes;
    use codes::{Code, DoubleParity, SingleParity, encode, restore};
    use faults::fault::ArrayFault;
    use faults::told::Told;
    use field::{double, inverse, logarithm, power, product};
    use layout::stripes::{locate, place};
    use memory::Memory;
    use std::alloc::{AllocError, Global};
    use std::test::Fail;

    // What a call answers: of a refusal its number and its first detail.
    type Outcome = Result<(), (u32, u32)>;

    fn told(r: Result<(), ArrayFault>) -> Outcome {
        r.map_err(|fault| (fault.number(), fault.details().0))
    }

    // An array of 4 disks with 8 blocks each is formatted, and then written to: what each of these calls answers. A write has a block number and a length.
    fn answers(
        heap: Global,
        cells: u32,
        writes: &[(u32, usize)],
    ) -> Result<Vec<Outcome>, AllocError> {
        let mut bytes = vec![in heap; 0u8; 512 * (32 + cells as usize)]?;
        let mut work = [0u8; 10240];
        let sizes = Sizes {
            slots: 4,
            blocks: 8,
            cells,
        };
        let mut array = Array::new(Memory::new(bytes.as_mut_slice(), sizes), SingleParity);
        let mut all = vec![in heap; told(array.format(&mut work))]?;
        for (number, length) in writes.iter() {
            let block = &[1u8; 512][..*length.min(&512)];
            all.push(told(array.write(*number, block, &mut work)))?;
        }
        Ok(all)
    }

    #[test]
    fn bytes_as_field_elements(rt: HostRuntime) {
        assert_eq!(rt; double(128), 29);
        assert_eq!(rt; double(127), 254);
        assert_eq!(rt; power(12), 205);
        assert_eq!(rt; power(255), 1);
        assert_eq!(rt; logarithm(0), None);
        assert_eq!(rt; logarithm(2), Some(1));
        assert_eq!(rt; product(3, 7), 9);
        assert_eq!(rt; product(128, 2), 29);
        assert_eq!(rt; inverse(1), Some(1));
    }

    #[test]
    fn checks_of_three_bytes(rt: HostRuntime) {
        let mut single = [1, 2, 3, 77];
        assert!(rt; encode::<SingleParity>(3, &mut single).is_ok());
        assert_eq!(rt; single, [1, 2, 3, 0]);
        let mut pair = [1, 2, 3, 77, 77];
        assert!(rt; encode::<DoubleParity>(3, &mut pair).is_ok());
        assert_eq!(rt; pair, [1, 2, 3, 0, 9]);
    }

    #[test]
    fn two_lost_bytes(rt: HostRuntime) {
        let mut row = [0, 0, 3, 0, 9];
        assert!(rt; restore::<DoubleParity>(3, &mut row, &[true, true]).is_ok());
        assert_eq!(rt; row, [1, 2, 3, 0, 9]);
    }

    #[test]
    fn rows_that_are_refused(rt: HostRuntime) {
        let mut row = [5, 6, 7, 8];
        assert!(rt; SingleParity::solve(3, &mut row, &[true, true]).is_err());
        assert!(rt; SingleParity::solve(2, &mut row, &[true]).is_err());
        assert!(rt; SingleParity::solve(3, &mut row, &[false, false, false, false, true]).is_err());
        assert_eq!(rt; row, [5, 6, 7, 8]);
    }

    #[test]
    fn places_of_a_block(rt: HostRuntime) {
        assert_eq!(rt; locate(3, 7), (2, 1));
        assert_eq!(rt; place(4, 2, 1), (3, 2));
        assert_eq!(rt; place(4, 2, 3), (1, 2));
    }

    // With 8 blocks on a disk and 3 data columns there are blocks 0 to 23.
    #[test]
    fn last_block(rt: HostRuntime) -> Result<(), Fail> {
        let all = answers(rt.alloc(), 24, &[(23, 512), (24, 512), (0, 511)])?;
        let wanted = [Ok(()), Ok(()), Err((3, 0)), Err((1, 0))];
        assert_eq!(rt; all.as_slice(), wanted.as_slice());
        Ok(())
    }

    // With 8 cells one write is taken, and a second to the same stripe is refused with 4 cells free.
    #[test]
    fn eight_cells(rt: HostRuntime) -> Result<(), Fail> {
        let all = answers(rt.alloc(), 8, &[(0, 512), (1, 512)])?;
        let wanted = [Ok(()), Ok(()), Err((16, 4))];
        assert_eq!(rt; all.as_slice(), wanted.as_slice());
        Ok(())
    }

    // With 9 cells one to another stripe is refused with 5 free, and one to the same stripe is taken.
    #[test]
    fn nine_cells(rt: HostRuntime) -> Result<(), Fail> {
        let all = answers(rt.alloc(), 9, &[(0, 512), (3, 512), (1, 512)])?;
        let wanted = [Ok(()), Ok(()), Err((16, 5)), Ok(())];
        assert_eq!(rt; all.as_slice(), wanted.as_slice());
        Ok(())
    }
}

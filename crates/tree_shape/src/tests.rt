//! Shapes and marks on small cases, whose answers were worked out apart from the program.

use super::{Shape, ShapeError};
use std::alloc::Global;
use std::test::Fail;

const DEPTHS: &str = "\
2 1
3 2
4 2
5 3
7 3
8 3
9 4
100 7
512 9
513 10
1023 10
1024 10";

const POSITIONS: &str = "\
2 0 2 1
2 1 3 1
3 0 3 1
3 1 4 2
3 2 5 2
4 1 5 2
4 2 6 3
5 0 5 2
5 2 7 3
5 4 9 4";

const CHANGES: &str = "\
6 0 0; 6 0 1; 2
5 0 0; 6 0 0;
1 2; 2 1;
1 2 3 4; 1 2 3 4;
3 1823296038 1 0 6; 1 1823296038 1 0 6; 2
3687093963 2 4 2 806899909 5; 1539610315 2 4 2 806899911 5; 2 3 5
1469118510 6 9 5 5 7 1159380353; 3616602158 6 9 5 5 6 1159380357; 3 6
6 5 1982966162 5 3299535553 1 7 2; 6 5 1982966162 5 3299535555 1 7 2; 3 6
8 0 8 6 7 0 4229115149 1; 9 4 10 2 6 4 2081631501 3; 2 3 4 5 6 7
7 0 0 0 0 0 0 0 0 0 0 0 0 0 0 0 0 0 0 7; 8 0 0 0 0 0 0 0 0 0 0 0 0 0 0 0 0 0 0 6; 2 4 5 9 10 19";

// The numbers that stand between spaces.
fn numbers(alloc: Global, text: &str) -> Result<Vec<u32>, Fail> {
    let mut numbers = Vec::new(alloc);
    for word in text.split_whitespace() {
        numbers.push(word.parse::<u32>()?)?;
    }
    Ok(numbers)
}

// Slots, and the depth of their tree.
fn has_depth(row: &[u32]) -> Result<bool, Fail> {
    let [slots, depth] = row else {
        return Ok(false);
    };
    let slots = *slots as usize;
    let shape = Shape::new(slots)?;
    let inner = !shape.is_inner(1) && !shape.is_inner(slots) && shape.is_inner(2) == (slots > 2);
    Ok(inner && shape.slots() == slots && shape.depth() == *depth)
}

// The slots of a vector, a slot, its position and the position of its pair.
fn has_position(row: &[u32]) -> Result<bool, Fail> {
    let [slots, slot, position, pair] = row else {
        return Ok(false);
    };
    let (slots, slot) = (*slots as usize, *slot as usize);
    let shape = Shape::new(slots)?;
    if slot >= slots {
        return Ok(false);
    }
    let own = shape.slot_position(slot);
    Ok(own == *position as usize && shape.parent(slots + slot) == *pair as usize)
}

// Two vectors, and the positions to be marked.
fn marks(alloc: Global, old: &[u32], new: &[u32], marked: &[u32]) -> Result<bool, Fail> {
    let shape = Shape::new(old.len())?;
    if new.len() != old.len() {
        return Ok(false);
    }
    let mut marks = vec![in alloc; true; old.len()]?;
    let count = shape.changed(old, new, &mut marks);
    for p in 0..marks.len() {
        if marks[p] != marked.contains(&(p as u32)) {
            return Ok(false);
        }
    }
    Ok(count == marked.len())
}

#[test]
fn shapes_and_marks(rt: HostRuntime) -> Result<(), Fail> {
    let alloc = rt.alloc();
    assert!(rt; Shape::new(0) == Err(ShapeError::TooShort(0)));
    assert!(rt; Shape::new(1) == Err(ShapeError::TooShort(1)));
    assert!(rt; Shape::new(1025) == Err(ShapeError::TooLong(1025)));
    for row in DEPTHS.lines() {
        assert!(rt; has_depth(&numbers(alloc, row)?)?, "{row}");
    }
    for row in POSITIONS.lines() {
        assert!(rt; has_position(&numbers(alloc, row)?)?, "{row}");
    }
    for row in CHANGES.lines() {
        let (old, rest) = row.split_once(';').ok_or("no old vector")?;
        let (new, marked) = rest.split_once(';').ok_or("no new vector")?;
        let (old, new) = (numbers(alloc, old)?, numbers(alloc, new)?);
        assert!(rt;
            marks(alloc, &old, &new, &numbers(alloc, marked)?)?,
            "{row}"
        );
    }
    Ok(())
}

#[test]
fn errors_tell_what_is_wrong(rt: HostRuntime) -> Result<(), Fail> {
    let alloc = rt.alloc();
    assert!(rt;
        ShapeError::TooShort(1).to_string(alloc)?.as_str()
            == "1 slots are too few, 2 to 1024 are allowed"
    );
    assert!(rt;
        ShapeError::TooLong(1025).to_string(alloc)?.as_str()
            == "1025 slots are too many, 2 to 1024 are allowed"
    );
    Ok(())
}

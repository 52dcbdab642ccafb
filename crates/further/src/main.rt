// Further rows of each call, and what each call refuses and in which order, as the compiled calls answer them, a line a row. What it
// prints is compared with the file `stdout` beside this folder.
//
// A table is a text, a line a row: the row's name and a colon, then its lists with a semicolon between them. A line with no colon is a
// heading. A is (0,0,0) (4,0,0) (0,4,0) in space and (0,0) (4,0) (0,4) in the plane. The grid ends at 1073741824 and -1073741824.
#![tactic(auto)]

use plate::Plate;
use printing::{flat, list, pair, rows, segment, side, turn};
use std::io;
use stories::{Standing, fill, lift_row, parts_rows, place_rows, shift_rows, undo_row, undo_times};

// The end of the grid.
const L: i32 = 1_073_741_824;

const A: [i32; 9] = [0, 0, 0, 4, 0, 0, 0, 4, 0];

// P1's second triangle, which meets A, and P2's second, which meets P1's but not A.
const ACROSS: [i32; 9] = [1, 1, -1, 1, 1, 1, 5, 5, 1];

const ABOVE: [i32; 9] = [1, 1, 1, 2, 1, 1, 1, 2, 1];

// The turn: the other signs and the ends of the grid; then lengths, several bad positions, and numbers past the ends of the grid.
fn turns(rt: &impl Print) -> io::Result<()> {
    rows(
        rt,
        turn,
        b"Further rows of the turn\n\
          to the right: 0 0 0 4 4 0\n\
          on a line: 0 0 2 2 5 5\n\
          equal points: 3 -1 3 -1 0 7\n\
          all at an end of the grid: -1073741824 -1073741824 1073741824 -1073741824 -1073741824 1073741824\n\
          no numbers:\n\
          5 numbers: 0 0 4 0 0\n\
          7 numbers, the first off the grid: 1073741825 0 4 0 0 4 0\n\
          12 numbers: 0 0 0 1 0 0 0 1 0 0 0 1\n\
          positions 2 and 4 off the grid: 0 0 1073741825 0 -1073741825 4\n\
          only the last off the grid: 0 0 4 0 0 -1073741825\n\
          the ends of 32 bits: -2147483648 2147483647 4 0 0 4\n",
    )
}

// The same of the side.
fn sides(rt: &impl Print) -> io::Result<()> {
    rows(
        rt,
        side,
        b"Further rows of the side\n\
          (0,0,0) (1,0,0) (0,1,0) (0,0,1): 0 0 0 1 0 0 0 1 0 0 0 1\n\
          in one plane: 0 0 0 1 0 0 0 1 0 5 7 0\n\
          all at an end of the grid: -1073741824 -1073741824 -1073741824 1073741824 -1073741824 -1073741824 -1073741824 -1073741824 1073741824 -1073741824 1073741824 -1073741824\n\
          the largest: 1073741824 1073741824 -1073741824 1073741824 -1073741824 1073741824 -1073741824 1073741824 1073741824 -1073741824 -1073741824 -1073741824\n\
          -1, of products of 92 bits: 1035830560 1073741824 -155819706 -1073741824 -1025133157 95863889 -971583400 966142785 -1073741824 937732003 -819454279 955701010\n\
          1, of the same: -1073741824 -1025133157 95863889 1035830560 1073741824 -155819706 -971583400 966142785 -1073741824 937732003 -819454279 955701010\n\
          2^64: 4194304 0 0 0 2097152 0 0 0 2097152 0 0 0\n\
          -2^64: 0 2097152 0 4194304 0 0 0 0 2097152 0 0 0\n\
          2^64 - 1: 42007935 0 0 0 65537 0 0 0 6700417 0 0 0\n\
          1 - 2^64: 0 65537 0 42007935 0 0 0 0 6700417 0 0 0\n\
          no numbers:\n\
          6 numbers: 0 0 4 0 0 4\n\
          11 numbers: 0 0 0 1 0 0 0 1 0 0 0\n\
          13 numbers, the last off the grid: 0 0 0 1 0 0 0 1 0 0 0 1 1073741825\n\
          positions 3, 7 and 11 off the grid: 0 0 0 -1073741825 0 0 0 1073741825 0 0 0 1073741825\n\
          only the last off the grid: 0 0 0 1 0 0 0 1 0 0 0 1073741825\n",
    )
}

// The flat test where the triangles touch or nearly do; then what it refuses, and in which order.
fn flats(rt: &impl Print) -> io::Result<()> {
    rows(
        rt,
        flat,
        b"Further rows of the flat test\n\
          A; A: 0 0 4 0 0 4; 0 0 4 0 0 4\n\
          one corner: 0 0 4 0 0 4; 4 0 5 0 5 1\n\
          one edge: 0 0 4 0 0 4; 0 0 4 0 0 -4\n\
          a corner on an edge: 0 0 4 0 0 4; 2 2 5 2 5 5\n\
          a corner one past the edge: 0 0 4 0 0 4; 3 2 5 2 5 5\n\
          inside, both turning right: 0 0 0 4 4 0; 1 1 1 2 2 1\n\
          from end to end of the grid, across: \
          -1073741824 -1073741824 1073741824 1073741824 -1073741824 1073741824; 1073741824 -1073741824 -1073741824 1073741824 -1073741824 -1073741824\n\
          from end to end of the grid, apart: -1073741824 -1073741824 1073741824 -1073741824 -1073741824 1073741824; 1073741824 1073741824 1 1073741824 1073741824 1\n\
          Refusals of the flat test\n\
          no numbers; no numbers: ;\n\
          A; 5 numbers: 0 0 4 0 0 4; 0 0 4 0 0\n\
          off the grid; 9 numbers: 1073741825 0 4 0 0 4; 0 0 0 4 0 0 0 4 0\n\
          off the grid and flat; A: 0 0 0 0 1073741825 0; 0 0 4 0 0 4\n\
          flat; off the grid: 0 0 0 0 4 0; -1073741825 0 4 0 0 4\n\
          A; positions 3 and 5 off the grid: 0 0 4 0 0 4; 0 0 4 -1073741825 0 1073741825\n\
          A; flat: 0 0 4 0 0 4; 5 5 1 1 3 3\n",
    )
}

// Triangles in space: corners on the other's plane, planes that stand upright, and the ends of the grid; then what the test refuses,
// and in which order.
fn pairs(rt: &impl Print) -> io::Result<()> {
    rows(
        rt,
        pair,
        b"Further rows of the test in space\n\
          a corner on the other's plane: 2 -2 3 1 1 3 2 4 -1; 2 1 1 -2 3 3 2 -3 -1\n\
          in one upright plane, one inside the other: 5 0 0 5 9 0 5 0 9; 5 1 1 5 2 1 5 1 2\n\
          in one upright plane, apart: 0 5 0 4 5 0 0 5 4; 3 5 3 5 5 3 3 5 5\n\
          from end to end of the grid, one point in common: \
          -1073741824 -1073741824 -1073741824 1073741824 1073741824 1073741824 1073741824 -1073741824 0; 0 0 0 -1073741824 1073741824 1073741824 -1073741824 1073741824 -1073741824\n\
          no numbers; no numbers: ;\n\
          off the grid; 6 numbers: 1073741825 0 0 4 0 0 0 4 0; 0 0 0 4 0 0\n\
          flat and off the grid; off the grid: 0 0 0 4 0 0 1073741825 0 0; 0 0 0 4 0 0 0 4 1073741825\n\
          flat; off the grid: 0 0 0 4 0 0 8 0 0; 0 0 0 4 0 0 0 4 1073741825\n",
    )
}

// Flat triangles in space against A: points, that is, three equal corners, and wires.
fn wires_on_a_triangle(rt: &impl Print) -> io::Result<()> {
    rows(
        rt,
        pair,
        b"Points and wires against A\n\
          a point on a corner: 4 0 0 4 0 0 4 0 0; 0 0 0 4 0 0 0 4 0\n\
          a point on an edge: 2 2 0 2 2 0 2 2 0; 0 0 0 4 0 0 0 4 0\n\
          a point inside: 1 1 0 1 1 0 1 1 0; 0 0 0 4 0 0 0 4 0\n\
          a point one step past an edge: 3 2 0 3 2 0 3 2 0; 0 0 0 4 0 0 0 4 0\n\
          a point one step off the plane: 1 1 1 1 1 1 1 1 1; 0 0 0 4 0 0 0 4 0\n\
          A; a needle through it: 0 0 0 4 0 0 0 4 0; 1 1 -1 1 1 2 1 1 1\n\
          A; a needle past it: 0 0 0 4 0 0 0 4 0; 3 2 -1 3 2 2 3 2 1\n\
          A; a needle that ends above it: 0 0 0 4 0 0 0 4 0; 1 1 1 1 1 3 1 1 2\n\
          A; a wire in its plane, across: 0 0 0 4 0 0 0 4 0; -1 1 0 1 1 0 5 1 0\n\
          A; a wire in its plane, past it: 0 0 0 4 0 0 0 4 0; 5 0 0 0 5 0 3 2 0\n\
          A; a wire of two equal corners, to a corner: 0 0 0 4 0 0 0 4 0; 1 2 3 1 2 3 0 4 0\n",
    )
}

// And against each other.
fn wires_and_points(rt: &impl Print) -> io::Result<()> {
    rows(
        rt,
        pair,
        b"Points and wires against each other\n\
          equal points: 5 -7 3 5 -7 3 5 -7 3; 5 -7 3 5 -7 3 5 -7 3\n\
          points one step apart: 5 -7 3 5 -7 3 5 -7 3; 5 -7 4 5 -7 4 5 -7 4\n\
          a point on a wire: 2 2 2 2 2 2 2 2 2; 0 0 0 4 4 4 1 1 1\n\
          a point one step beside a wire: 2 2 3 2 2 3 2 2 3; 0 0 0 4 4 4 1 1 1\n\
          wires on one line, end to end: 0 0 0 1 1 1 2 2 2; 4 4 4 2 2 2 3 3 3\n\
          overlapping: 0 0 0 1 1 1 2 2 2; 1 1 1 2 2 2 3 3 3\n\
          one step apart: 0 0 0 1 1 1 2 2 2; 3 3 3 4 4 4 5 5 5\n\
          upright, end to end: 1 1 0 1 1 2 1 1 1; 1 1 4 1 1 2 1 1 3\n\
          upright, one step apart: 1 1 0 1 1 2 1 1 1; 1 1 4 1 1 3 1 1 3\n\
          wires that cross: 0 0 0 4 4 4 2 2 2; 4 0 2 0 4 2 1 3 2\n\
          one step over each other: 0 0 0 4 4 4 2 2 2; 4 0 3 0 4 3 1 3 3\n\
          in one plane, one past the other's end: 0 0 0 4 4 4 2 2 2; 6 4 5 4 6 5 5 5 5\n\
          from end to end of the grid, across: \
          -1073741824 -1073741824 -1073741824 1073741824 1073741824 1073741824 0 0 0; -1073741824 1073741824 1073741824 1073741824 -1073741824 -1073741824 1073741824 -1073741824 -1073741824\n",
    )
}

// A segment and a triangle in space, and what the test of them refuses.
fn segments(rt: &impl Print) -> io::Result<()> {
    rows(
        rt,
        segment,
        b"Further rows of the segment test\n\
          through A: 1 1 -1 1 1 1; 0 0 0 4 0 0 0 4 0\n\
          past A: 3 3 -1 3 3 1; 0 0 0 4 0 0 0 4 0\n\
          ending on an edge of A: 2 2 5 2 2 0; 0 0 0 4 0 0 0 4 0\n\
          in the plane of A, past it: 5 0 0 0 5 0; 0 0 0 4 0 0 0 4 0\n\
          equal ends; A: 1 1 0 1 1 0; 0 0 0 4 0 0 0 4 0\n\
          equal ends, one step off; A: 1 1 1 1 1 1; 0 0 0 4 0 0 0 4 0\n\
          through a wire: 1 1 -1 1 1 1; 0 0 0 2 2 0 1 1 0\n\
          over a wire: 1 1 1 1 1 3; 0 0 0 2 2 0 1 1 0\n\
          equal ends; the same point: 3 2 1 3 2 1; 3 2 1 3 2 1 3 2 1\n\
          A; a segment: 0 0 0 4 0 0 0 4 0; 1 1 -1 1 1 1\n\
          equal ends off the grid; A: 0 0 1073741825 0 0 1073741825; 0 0 0 4 0 0 0 4 0\n",
    )
}

// Listings: the ends of the buffer, and empty lists; then what is refused, and in which order, for the start and the lengths and for
// what the checks find in lists of two triangles. After its lists a row has the start in the buffer.
fn lists(rt: &impl Print) -> io::Result<()> {
    rows(
        rt,
        list,
        b"Further rows of the listing\n\
          no triangles, start 7: ; ; 7\n\
          no triangles, start 8: ; ; 8\n\
          one list empty: 0 0 0 4 0 0 0 4 0 1 1 1 2 1 1 1 2 1; ; 0\n\
          a pair, exactly full: 0 0 0 4 0 0 0 4 0; 0 0 0 4 0 0 0 4 0; 5\n\
          a pair, one number short: 0 0 0 4 0 0 0 4 0; 0 0 0 4 0 0 0 4 0; 6\n\
          A, then a wire; a point of both, then a wire that meets neither: \
          0 0 0 4 0 0 0 4 0 0 0 0 2 2 2 1 1 1; 0 0 0 0 0 0 0 0 0 1 1 2 3 3 4 2 2 3; 1\n\
          Refusals of the listing\n\
          8 numbers; 10 numbers, start 8: 0 0 0 4 0 0 0 4; 0 0 0 4 0 0 0 4 0 1; 8\n\
          8 numbers; 10 numbers: 0 0 0 4 0 0 0 4; 0 0 0 4 0 0 0 4 0 1; 0\n\
          off the grid; 10 numbers: 0 0 0 1073741825 0 0 0 4 0; 0 0 0 4 0 0 0 4 0 1; 0\n\
          flat, then off the grid: 0 0 0 4 0 0 8 0 0 0 0 0 1073741825 0 0 0 4 0; 0 0 0 4 0 0 0 4 0; 0\n\
          fine, then positions 14 and 16 off the grid: 0 0 0 4 0 0 0 4 0 1 1 1 2 1 1073741825 1 1073741825 1; 0 0 0 4 0 0 0 4 0; 0\n\
          flat; off the grid: 0 0 0 4 0 0 8 0 0; 0 0 0 4 0 0 0 4 1073741825; 0\n\
          too little room; off the grid: 0 0 0 4 0 0 0 4 0; 0 0 0 4 0 0 0 4 1073741825; 7\n",
    )
}

// The reach below its end, and the most clashes that a plate can have.
fn changes(rt: &impl Print) -> io::Result<()> {
    let left = undo_times(fill(plate::empty(), 0..40), 5);
    let changed = Standing::of(fill(left, 35..38));
    println!(rt; "Further changes of the plate\n40 changes, 5 undos, 3 changes: {changed}")?;
    let filled = Standing::of(fill(plate::empty(), 0..64));
    println!(rt; "all 64 slots filled, 4 as each part: {filled}")
}

// What place refuses for the slot and the part. After its colon a row has the slot and the part, then the triangle.
fn place_number_refusals(rt: &impl Print) -> io::Result<Plate> {
    rt.println("Further rows of place")?;
    place_rows(
        rt,
        plate::empty(),
        b"A in slot 63 as part 15: 63 15; 0 0 0 4 0 0 0 4 0\n\
          slot 64, part 16, 8 numbers: 64 16; 0 0 0 4 0 0 0 4\n\
          slot 2^64 - 1: 18446744073709551615 0; 0 0 0 4 0 0 0 4 0\n\
          a filled slot, part 16, 8 numbers: 63 16; 0 0 0 4 0 0 0 4\n\
          part 256: 0 256; 0 0 0 4 0 0 0 4 0\n",
    )
}

// What it refuses for the triangle, and then for the slot, which has A as part 15; and two triangles that it places.
fn place_list_refusals(rt: &impl Print, plate: Plate) -> io::Result<()> {
    place_rows(
        rt,
        plate,
        b"a filled slot, no numbers: 63 0;\n\
          a filled slot, 10 numbers, the first off the grid: 63 0; 1073741825 0 0 4 0 0 0 4 0 0\n\
          a filled slot, flat, positions 3 and 6 off the grid: 63 0; 0 0 0 1073741825 0 0 -1073741825 0 0\n\
          a filled slot, flat: 63 0; 0 0 0 1 1 1 2 2 2\n\
          a filled slot: 63 0; 0 0 0 4 0 0 0 4 0\n\
          A in slot 0 as part 15: 0 15; 0 0 0 4 0 0 0 4 0\n\
          A in slot 62 as part 0: 62 0; 0 0 0 4 0 0 0 4 0\n",
    )?;
    Ok(())
}

// Lift of A in slots 0 to 2, as parts 0 to 2: what it refuses, and a slot that is filled again.
fn lifts(rt: &impl Print) -> io::Result<()> {
    rt.println("Further rows of lift")?;
    let mut plate = fill(plate::empty(), 0..3);
    for slot in [64, 3, 1, 1] {
        plate = lift_row(rt, plate, slot)?;
    }
    plate = place_rows(
        rt,
        plate,
        b"A in slot 1 again, as part 0: 1 0; 0 0 0 4 0 0 0 4 0\n",
    )?;
    plate = undo_row(rt, plate)?;
    undo_row(rt, plate)?;
    Ok(())
}

// A plate after a place.
fn placed(plate: Plate, slot: usize, part: usize, triangle: &[i32]) -> Plate {
    plate::place(plate, slot, part, triangle).plate
}

// Part 2 has A in slot 5, and in slots 7 and 9 triangles that reach to one before the end of the grid and to its ends. Part 4
// has a triangle that has the corner (4,0,0) in common with A.
fn shift_plate() -> Plate {
    let a = placed(plate::empty(), 5, 2, &A);
    let b = placed(a, 7, 2, &[L - 5, 0, 0, L - 1, 0, 0, L - 5, 4, 0]);
    let c = placed(b, 9, 2, &[L - 4, 0, 0, L, 0, 0, L - 4, 4, -L]);
    placed(c, 11, 4, &[-9, 0, 0, 4, 0, 0, -9, 9, 0])
}

// What shift refuses, and in which order: a part above 15, a part with no triangle, and moves that would take slot 9, slots 7
// and 9, and slot 9 off the grid; then moves by the ends of 32 bits.
fn shift_refusals(rt: &impl Print, plate: Plate) -> io::Result<Plate> {
    shift_rows(
        rt,
        plate,
        &[
            (16, [i32::MAX, 0, 0]),
            (3, [0, i32::MAX, 0]),
            (2, [1, 0, 0]),
            (2, [2, 0, 0]),
            (2, [0, 0, -1]),
            (2, [i32::MAX, 0, 0]),
            (2, [0, i32::MIN, 0]),
            (4, [0, 0, i32::MIN]),
        ],
    )
}

// From one end of the grid to the other: the longest move that there is, and its way back, which no 32-bit number holds.
fn shift_across(rt: &impl Print) -> io::Result<()> {
    let mut plate = placed(plate::empty(), 0, 6, &[0, 0, L, 4, 0, L, 0, 4, L]);
    plate = shift_rows(rt, plate, &[(6, [0, 0, i32::MIN])])?;
    plate = undo_row(rt, plate)?;
    shift_rows(rt, plate, &[(6, [0, 0, 1])])?;
    Ok(())
}

// Moves that are served: by nothing, and to the end of the grid, where part 2 leaves the triangle of part 4 with slot 5 and meets it
// with slots 7 and 9. One further is refused.
fn shifts(rt: &impl Print) -> io::Result<()> {
    rt.println("Further rows of shift")?;
    let mut plate = shift_refusals(rt, shift_plate())?;
    plate = shift_rows(
        rt,
        plate,
        &[(2, [0, 0, 0]), (2, [-L, 0, 0]), (2, [-1, 0, 0])],
    )?;
    undo_row(rt, plate)?;
    shift_across(rt)?;
    rt.println("Undo of the empty plate")?;
    undo_row(rt, plate::empty())?;
    Ok(())
}

// Part 0 has A and P4's second triangle, which have an edge in common; part 1 has P1's second, part 2 P2's second: open shells.
fn parts_plate() -> Plate {
    let a = placed(plate::empty(), 0, 0, &A);
    let b = placed(a, 1, 0, &[0, 0, 0, 4, 0, 0, 0, -4, 0]);
    let c = placed(b, 2, 1, &ACROSS);
    placed(c, 3, 2, &ABOVE)
}

// What parts refuses, and in which order. Parts 3 and 4 have no triangle. Then the verdicts on open shells.
fn parts(rt: &impl Print) -> io::Result<()> {
    let plate = parts_plate();
    println!(rt;
        "Further rows of parts\nfour triangles of three parts: {}",
        Standing::of(plate)
    )?;
    parts_rows(rt, plate, &[(16, 17), (3, 16), (3, 4), (0, 4), (3, 3)])?;
    parts_rows(rt, plate, &[(0, 0), (0, 1), (1, 0), (0, 2), (2, 1)])
}

// Adds a block from (l,l,l) to (h,h,h), in twelve slots: its bottom, top, front, back, left and right. A face has two triangles, which turn
// left as seen from outside.
fn block(mut plate: Plate, slot: usize, part: usize, l: i32, h: i32) -> Plate {
    let faces = [
        [l, l, l, l, h, l, h, h, l],
        [l, l, l, h, h, l, h, l, l],
        [l, l, h, h, l, h, h, h, h],
        [l, l, h, h, h, h, l, h, h],
        [l, l, l, h, l, l, h, l, h],
        [l, l, l, h, l, h, l, l, h],
        [l, h, l, l, h, h, h, h, h],
        [l, h, l, h, h, h, h, h, l],
        [l, l, l, l, l, h, l, h, h],
        [l, l, l, l, h, h, l, h, l],
        [h, l, l, h, h, l, h, h, h],
        [h, l, l, h, h, h, h, l, h],
    ];
    for (slot, triangle) in (slot..).zip(&faces) {
        plate = placed(plate, slot, part, triangle);
    }
    plate
}

// A pin in a block; then the block with a hollow, given by an inner skin, and the pin in it; and a pin in what is left of the block.
fn swallowed(rt: &impl Print) -> io::Result<Plate> {
    let pin = block(block(plate::empty(), 0, 0, 0, 20), 12, 1, 8, 9);
    println!(rt; "a pin in a block: {}", Standing::of(pin))?;
    parts_rows(rt, pin, &[(0, 1), (1, 0)])?;
    let hollow = block(pin, 24, 0, 4, 16);
    println!(rt;
        "the same with a hollow around the pin: {}",
        Standing::of(hollow)
    )?;
    parts_rows(rt, hollow, &[(0, 1), (1, 0)])?;
    let two = block(hollow, 36, 2, 17, 18);
    println!(rt; "another pin outside of the hollow: {}", Standing::of(two))?;
    parts_rows(rt, two, &[(0, 2), (1, 2)])?;
    Ok(two)
}

// Open shells: of the pin, which is asked against itself too, and then of the block.
fn opened(rt: &impl Print, plate: Plate) -> io::Result<()> {
    let pin = lift_row(rt, plate, 23)?;
    parts_rows(rt, pin, &[(0, 1), (1, 0), (1, 1)])?;
    let both = lift_row(rt, pin, 0)?;
    parts_rows(rt, both, &[(0, 1), (1, 0)])
}

fn main(rt: HostRuntime) -> io::Result<()> {
    turns(&rt)?;
    sides(&rt)?;
    flats(&rt)?;
    pairs(&rt)?;
    wires_on_a_triangle(&rt)?;
    wires_and_points(&rt)?;
    segments(&rt)?;
    lists(&rt)?;
    changes(&rt)?;
    place_list_refusals(&rt, place_number_refusals(&rt)?)?;
    lifts(&rt)?;
    shifts(&rt)?;
    parts(&rt)?;
    opened(&rt, swallowed(&rt)?)
}

// Rows of the calls on a plate: what a call answered, and the plate afterwards, which a row gives back.
use plate::{Plate, PlateAnswer};
use printing::{Told, read_count, take_list, told_verdict, until};
use std::fmt::{self, Display};
use std::io;

// How a plate stands: its clash count, and how many changes undo can still take back.
#[derive(Clone, Copy)]
pub struct Standing {
    count: u32,
    reach: usize,
}

impl Standing {
    pub fn of(plate: Plate) -> Standing {
        Standing {
            count: plate::count(plate),
            reach: plate::reach(plate),
        }
    }
}

impl Display for Standing {
    fn fmt<W: fmt::Write>(&self, f: &mut fmt::Formatter<W>) -> fmt::Result {
        write!(f, "count {}, reach {}", self.count, self.reach)
    }
}

// A call's count in a row of counts, or why it was refused.
pub fn counted(rt: &impl Print, answer: PlateAnswer) -> io::Result<Plate> {
    match answer.told {
        Ok(()) => print!(rt; " {}", plate::count(answer.plate))?,
        Err(why) => print!(rt; "; {why}")?,
    }
    Ok(answer.plate)
}

// A row by its name.
fn plate_row(rt: &impl Print, name: impl Display + Drop, answer: PlateAnswer) -> io::Result<Plate> {
    let told = Told {
        answer: answer.told.map(|()| "served"),
    };
    println!(rt; "{name}: {told}; {}", Standing::of(answer.plate))?;
    Ok(answer.plate)
}

// A table of places as text, a line a row: its name and a colon, the slot and the part, and after a semicolon the triangle. Each row
// is put to the plate that the row before gave back. Any bytes are read as something.
pub fn place_rows(rt: &impl Print, mut plate: Plate, table: &[u8]) -> io::Result<Plate> {
    // Rows are taken off the front: the library's `lines` is for text, and a table may be any bytes.
    let mut rest = table;
    while !rest.is_empty() {
        let (line, behind) = rest.split_at(until(rest, 0, b'\n'));
        plate = place_row(rt, plate, line)?;
        rest = behind.get(1..).unwrap_or(&[]);
    }
    Ok(plate)
}

// A row, from its colon on, put to the plate. Its name may be any bytes, and is written first.
fn place_row(rt: &impl Print, plate: Plate, line: &[u8]) -> io::Result<Plate> {
    let (name, numbers) = line.split_at(until(line, 0, b':'));
    rt.write_all(name)?;
    let (slot, behind) = read_count(numbers);
    let (part, behind) = read_count(behind);
    let list = take_list(behind);
    plate_row(
        rt,
        "",
        plate::place(plate, slot, part, &list.numbers[..list.count]),
    )
}

pub fn lift_row(rt: &impl Print, plate: Plate, slot: usize) -> io::Result<Plate> {
    plate_row(
        rt,
        format_args!("lift of slot {slot}"),
        plate::lift(plate, slot),
    )
}

// A row for each part and move.
pub fn shift_rows(
    rt: &impl Print,
    mut plate: Plate,
    moves: &[(usize, [i32; 3])],
) -> io::Result<Plate> {
    for &(part, [dx, dy, dz]) in moves {
        plate = plate_row(
            rt,
            format_args!("shift of part {part} by {dx} {dy} {dz}"),
            plate::shift(plate, part, dx, dy, dz),
        )?;
    }
    Ok(plate)
}

pub fn undo_row(rt: &impl Print, plate: Plate) -> io::Result<Plate> {
    plate_row(rt, "undo", plate::undo(plate))
}

// A row for each two parts.
pub fn parts_rows(rt: &impl Print, plate: Plate, parts: &[(usize, usize)]) -> io::Result<()> {
    for &(p, q) in parts {
        println!(rt;
            "parts {p} and {q}: {}",
            told_verdict(plate::parts(plate, p, q))
        )?;
    }
    Ok(())
}

// The answers of the calls that the C interface has, through it, as numbers, and what of them is due by the space that
// is lent. Each call is lent the first numbers of its memory, as many as are said, since what is behind them is looked
// at too; where there are not so many, the call is not made, and there is no answer.
#![tactic(auto)]

use outcomes::{Answer, Due, Question};
use test_memory::TwoLists;

// What is due by the space that is lent

// What is due from the two runs of n operations in buffers of these sizes, where `order` is due from the pair order.
pub fn runs_due(order: Due, n: usize, sizes: [usize; 2]) -> Due {
    let values = order?;
    if values[0] != 0 {
        return Err(Question::Unordered.at(0));
    }
    if sizes[0] < n || sizes[1] < n {
        return Err(Question::RunSpace.at(0));
    }
    Ok([test_memory::number(n), 0, 0, 0])
}

// What is due from the race list in two lists of these sizes, where `table` is due from the order table.
pub fn races_due(table: Due, races: usize, sizes: [usize; 2]) -> Due {
    let counts = table?;
    if sizes[0] < races || sizes[1] < races {
        return Err(Question::RaceSpace.at(test_memory::number(races)));
    }
    Ok([counts[0], counts[1], test_memory::number(races), 0])
}

// What is due from tidying a file into an output of `size` bytes, where `reading` is due from reading the file.
pub fn canonical_due(reading: Due, file_size: usize, size: usize) -> Due {
    reading?;
    if size < file_size {
        return Err(Question::OutputSpace.at(0));
    }
    Ok([test_memory::number(file_size), 0, 0, 0])
}

// The calls

pub fn accept_answer(file: &[u8]) -> Answer {
    let r = capi::mersohki_accept(file);
    Answer {
        number: r.number,
        place: r.place,
        values: [r.workers as u32, r.operations, 0, 0],
    }
}

pub fn table_answer(file: &[u8], table: &mut [u16], size: usize) -> Option<Answer> {
    let r = capi::mersohki_order_table(file, table.get_mut(..size)?);
    Some(Answer {
        number: r.number,
        place: r.place,
        values: [r.workers as u32, r.operations, 0, 0],
    })
}

// The order as a number without a sign: 1 where it is −1, 2 where it is +1, 0 where it is 0, and 3 for any other.
fn unsigned(sign: i8) -> u32 {
    match sign {
        -1 => 1,
        0 => 0,
        1 => 2,
        _ => 3,
    }
}

pub fn order_answer(file: &[u8], a: u32, b: u32) -> Answer {
    let r = capi::mersohki_pair_order(file, a, b);
    Answer {
        number: r.number,
        place: r.place,
        values: [unsigned(r.sign), 0, 0, 0],
    }
}

// The sizes are those of the two buffers.
pub fn runs_answer<const N: usize>(
    file: &[u8],
    a: u32,
    b: u32,
    runs: &mut TwoLists<N>,
    sizes: [usize; 2],
) -> Option<Answer> {
    let first = runs.first.get_mut(..sizes[0])?;
    let second = runs.second.get_mut(..sizes[1])?;
    let r = capi::mersohki_two_runs(file, a, b, first, second);
    Some(Answer {
        number: r.number,
        place: r.place,
        values: [r.operations, 0, 0, 0],
    })
}

// The sizes are those of the table and of the two lists.
pub fn races_answer<const N: usize>(
    file: &[u8],
    table: &mut [u16],
    lists: &mut TwoLists<N>,
    sizes: [usize; 3],
) -> Option<Answer> {
    let rows = table.get_mut(..sizes[0])?;
    let lower = lists.first.get_mut(..sizes[1])?;
    let higher = lists.second.get_mut(..sizes[2])?;
    let r = capi::mersohki_races(file, rows, lower, higher);
    Some(Answer {
        number: r.number,
        place: r.place,
        values: [r.workers as u32, r.operations, r.races, 0],
    })
}

pub fn canonical_answer(file: &[u8], output: &mut [u8], size: usize) -> Option<Answer> {
    let r = capi::mersohki_canonical(file, output.get_mut(..size)?);
    Some(Answer {
        number: r.number,
        place: r.place,
        values: [r.size, 0, 0, 0],
    })
}

// A length, or the largest number where it has more than 16 bits.
fn length_value(length: usize) -> u32 {
    match u16::try_from(length) {
        Ok(length) => u32::from(length),
        Err(_) => u32::MAX,
    }
}

// Which list the beginning is a part of, 0 the first and 1 the second, and how many numbers it has.
pub fn beginning_answer(first: &[u16], second: &[u16], chosen: u32, other: u32) -> Answer {
    let r = capi::mersohki_beginning(first, second, chosen, other);
    Answer {
        number: 0,
        place: 0,
        values: [r.list, length_value(r.length), 0, 0],
    }
}

// Tests of a search that is handed over: who holds one, and knows of it what its type says alone, gets the next row.
#![tactic(auto)]

ghost use Rattle.std.specs.Prelude.{◌≡◌, ◌+◌, length, IfSome};
ghost use Rattle.trace.specs.Reading.{trace_of};
ghost use Rattle.race_model.specs.RaceRows.{race_row, RowHolds};

#[cfg(test)]
mod tests {
    use race_rows::Search;
    use table_entries::FilledTable;
    use trace::{Refusal, TraceFile};

    // Example B: the first and the last of five operations race.
    const ONE_RACE: [u8; 60] = [
        0x50, 0x57, 3, 0, 5, 0, 0, 0, 0, 0, //
        0x50, 0x57, 0, 4, 7, 0, 0, 0, 1, 0, //
        0x50, 0x57, 0, 1, 1, 0, 0, 0, 0, 0, //
        0x50, 0x57, 1, 1, 1, 0, 0, 0, 0, 0, //
        0x50, 0x57, 2, 2, 1, 0, 0, 0, 0, 0, //
        0x50, 0x57, 2, 3, 7, 0, 0, 0, 1, 0,
    ];

    // A Write of worker 0 races with a Read and a Write of worker 1, of the same cell.
    const TWO_RACES: [u8; 40] = [
        0x50, 0x57, 2, 0, 3, 0, 0, 0, 0, 0, //
        0x50, 0x57, 0, 4, 7, 0, 0, 0, 1, 0, //
        0x50, 0x57, 1, 3, 7, 0, 0, 0, 1, 0, //
        0x50, 0x57, 1, 4, 7, 0, 0, 0, 1, 0,
    ];

    // An accepted file, and its order table, which is written to the lent one.
    fn filled<'a>(file: &'a [u8], table: &'a mut [u16]) -> Result<FilledTable<'a>, Refusal> {
        order_table::order_table(file, table)?;
        let trace = TraceFile::of(file);
        Ok(FilledTable { trace, table })
    }

    // A search before row 0.
    fn begin(filled: FilledTable<'_>) -> Search<'_>
        ensures { (result.filled ≡ filled.entry) × (result.next ≡ 0) }
    {
        Search::of(filled)
    }

    // Counts the next row of a search, where it has one.
    fn count(search: &mut Search<'_>) -> Option<usize>
        ensures { IfSome result (λ n.
            (n ≡ length (race_row (trace_of search.old.filled.trace.bytes.now) search.old.next))
            × (search.new.filled ≡ search.old.filled)
            × (search.new.next ≡ search.old.next + 1)) }
    {
        if search.next < search.filled.trace.operations as usize {
            return Some(search.count_row());
        }
        None
    }

    // Lists the next row, where there is one.
    fn list(search: &mut Search<'_>, row: &mut [u16; 1024]) -> Option<usize>
        ensures { IfSome result (λ n. RowHolds (race_row (trace_of search.old.filled.trace.bytes.now) search.old.next) n
            row.new × (search.new.filled ≡ search.old.filled)
            × (search.new.next ≡ search.old.next + 1)) }
    {
        if search.next < search.filled.trace.operations as usize {
            return Some(search.list_row(1, row));
        }
        None
    }

    // The same, of which nothing is said.
    fn next(search: &mut Search<'_>, row: &mut [u16; 1024]) -> Option<usize>
        ensures { IfSome result (λ n. RowHolds (race_row (trace_of search.old.filled.trace.bytes.now) search.old.next) n
            row.new × (search.new.filled ≡ search.old.filled)
            × (search.new.next ≡ search.old.next + 1)) }
    {
        if search.next < search.filled.trace.operations as usize {
            return Some(search.next_row(row));
        }
        None
    }

    fn is<T: PartialEq + Drop>(found: T, wanted: T) -> Result<(), &'static str> {
        if found == wanted {
            Ok(())
        } else {
            Err("another answer")
        }
    }

    #[test]
    fn counts_rows() -> Result<(), &'static str> {
        let mut table = [0u16; 15];
        let mut search = begin(filled(&ONE_RACE, &mut table).or(Err("refused"))?);
        for wanted in [Some(1), Some(0), Some(0), Some(0), Some(0), None] {
            is(count(&mut search), wanted)?;
        }
        Ok(())
    }

    #[test]
    fn lists_rows() -> Result<(), &'static str> {
        let mut table = [0u16; 6];
        let mut search = begin(filled(&TWO_RACES, &mut table).or(Err("refused"))?);
        let mut row = [7u16; 1024];
        is(list(&mut search, &mut row), Some(2))?;
        is([row[0], row[1]], [1, 2])?;
        is(list(&mut search, &mut row), Some(0))?;
        is(count(&mut search), Some(0))?;
        is(list(&mut search, &mut row), None)
    }

    #[test]
    fn takes_each_row() -> Result<(), &'static str> {
        let mut table = [0u16; 15];
        let mut search = begin(filled(&ONE_RACE, &mut table).or(Err("refused"))?);
        let mut row = [7u16; 1024];
        is(next(&mut search, &mut row), Some(1))?;
        is(row[0], 4)?;
        for wanted in [Some(0), Some(0), Some(0), Some(0), None] {
            is(next(&mut search, &mut row), wanted)?;
        }
        Ok(())
    }
}

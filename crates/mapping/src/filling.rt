// A listing, span by span into the lent rows.
ghost use Rattle.std.specs.Prelude.{false, ◌≡◌, length, ◌+◌, ◌-◌, ◌%◌, ◌^◌, ◌<◌, ◌≤◌};
ghost use Rattle.image.specs.Answers.{memory_of};
ghost use Rattle.regions.specs.Known.{Sound};
ghost use Rattle.regions.specs.Outside.{table_outside};
ghost use Rattle.mapping.specs.Filled.{FilledWith};
ghost use Rattle.mapping.specs.Mapping.{regions_over};
ghost use Rattle.mapping.specs.Spans.{spans_after};

use crate::rows::{put_span, room};
use crate::search::next_span;
use image::Memory;
use regions::{Tables, table_span};

#[derive(Clone, Copy, Debug, PartialEq, Eq)]
pub struct Filled {
    pub count: usize,
    pub more: bool,
}

pub(crate) fn fill(
    memory: &Memory,
    tables: Tables,
    end: u64,
    known: &mut [u64],
    rows: &mut [u64],
) -> Filled
    requires { (end ≤ 2 ^ 57) × (end % 4096 ≡ 0)
        × Sound tables.registers (memory_of memory.now) (table_outside memory.now.windows.now) known.old }
    ensures filled_with { FilledWith (spans_after (regions_over tables memory.now.windows.now memory.now.image.now) end 0) rows.old rows.new result.count result.more }
    ensures known_len_unchanged { length known.new ≡ length known.old }
{
    let most = room(rows.len());
    let mut from = 0;
    // A single call of next_span, which the compiler then puts in here: the last turn tells whether there is one more, and goes no further.
    for count in 0..most + 1 {
        let Some((start, region)) = next_span(memory, tables, end, from, known) else {
            return Filled { count, more: false };
        };
        if count == most {
            break;
        }
        put_span(rows, count, end, start, region);
        from = start + table_span(region.level - 1);
    }
    Filled {
        count: most,
        more: true,
    }
}

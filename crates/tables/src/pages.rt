// The pages of the region by their marks.
ghost use Rattle.std.specs.Prelude.{◌≡◌, ◌≤◌, length, set};
ghost use Rattle.tables.specs.Pages.{lowest, free_pages};

// The lowest free page.
pub(crate) fn lowest_free(marks: &[u8]) -> usize
    ensures { (result ≡ lowest marks.now) × (result ≤ length marks.now) }
{
    marks
        .iter()
        .position(|mark| *mark == 0)
        .unwrap_or(marks.len())
}

pub(crate) fn count_free(marks: &[u8]) -> usize
    ensures { result ≡ free_pages marks.now }
{
    marks.iter().filter(|mark| **mark == 0).count()
}

// A page of another region has no mark.
pub fn mark(marks: &mut [u8], page: u64, level: u8)
    ensures { marks.new ≡ set marks.old page level }
{
    if page < marks.len() as u64 {
        marks[page as usize] = level;
    }
}

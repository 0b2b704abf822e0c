// The reasons against a page that the tables tell, by document 02's numbers.
ghost use Rattle.std.specs.Prelude.{◌≡◌};
ghost use Rattle.tables.specs.Answers.{page_error_number};

#[derive(Clone, Copy, Debug, PartialEq, Eq)]
pub enum PageError {
    // A mapped page meets this one.
    Overlap = 6,
    // There are fewer free pages than missing tables.
    TooFewPages = 7,
    // No page of this place and size is mapped.
    NoSuchPage = 8,
}

impl PageError {
    pub fn number(self) -> u8
        ensures { result ≡ page_error_number self }
    {
        self as u8
    }
}

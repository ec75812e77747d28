// How a book is loaded.
ghost use Rattle.std.specs.Prelude.{◌≡◌};
ghost use Rattle.book.specs.Strict.{strictly};

// As any that is in order, or strictly, so that no call ever lacks room; each for the ordinary way of monitoring, or for the lasting one, in which a
// state lasts until the next call.
#[derive(Clone, Copy, Debug, PartialEq, Eq)]
pub enum Loading {
    Ordinary,
    Strict,
    Lasting,
    LastingStrict,
}

impl Loading {
    pub fn is_strict(self) -> bool
        ensures { result ≡ strictly self }
    {
        matches!(self, Loading::Strict | Loading::LastingStrict)
    }
}

// What the two calls refuse (RULES 13.1).
ghost use Rattle.std.specs.Prelude.{◌≡◌, ◌<◌, Err};
ghost use Rattle.capture_convert.specs.Answer.{number_of};

#[derive(Clone, Copy, Debug, PartialEq, Eq)]
pub enum ConvertError {
    IllFormed,
    TooMany,
    NoCapture,
    NotCarried,
    OutputSmall,
}

impl ConvertError {
    pub fn number(self) -> u64
        ensures { (result ≡ number_of (Err self)) × (result < 256) }
    {
        match self {
            ConvertError::IllFormed => 18,
            ConvertError::TooMany => 9,
            ConvertError::NoCapture => 22,
            ConvertError::NotCarried => 23,
            ConvertError::OutputSmall => 8,
        }
    }
}

// What is said of a match's examinee.

// What is examined: an enum, given by its list of variants; what is no enum (24); an enum with parameters (36).
#[derive(Clone, Copy)]
pub enum Subject {
    Enum(u32),
    Other,
    Generic,
}

//! What a record is for (FastCGI 1.0 section 8). A head holds the byte, which decides; an unknown one has no kind.
ghost use Rattle.std.specs.Prelude.{◌≡◌};
ghost use Rattle.fcgi_record.specs.Kinds.{kind_byte, kind_of};

/// The kinds of records.
#[derive(Clone, Copy, Debug, PartialEq, Eq)]
pub enum RecordKind {
    BeginRequest,
    AbortRequest,
    EndRequest,
    Params,
    Stdin,
    Stdout,
    Stderr,
    ExtraData,
    GetValues,
    GetValuesResult,
    UnknownType,
}

impl RecordKind {
    /// The byte that stands for it in a head.
    pub fn byte(self) -> u8
        ensures { result ≡ kind_byte self }
    {
        match self {
            RecordKind::BeginRequest => 1,
            RecordKind::AbortRequest => 2,
            RecordKind::EndRequest => 3,
            RecordKind::Params => 4,
            RecordKind::Stdin => 5,
            RecordKind::Stdout => 6,
            RecordKind::Stderr => 7,
            RecordKind::ExtraData => 8,
            RecordKind::GetValues => 9,
            RecordKind::GetValuesResult => 10,
            RecordKind::UnknownType => 11,
        }
    }

    /// The kind that a byte stands for; none for 0 and above 11.
    pub fn of_byte(byte: u8) -> Option<RecordKind>
        ensures { result ≡ kind_of byte }
    {
        match byte {
            1 => Some(RecordKind::BeginRequest),
            2 => Some(RecordKind::AbortRequest),
            3 => Some(RecordKind::EndRequest),
            4 => Some(RecordKind::Params),
            5 => Some(RecordKind::Stdin),
            6 => Some(RecordKind::Stdout),
            7 => Some(RecordKind::Stderr),
            8 => Some(RecordKind::ExtraData),
            9 => Some(RecordKind::GetValues),
            10 => Some(RecordKind::GetValuesResult),
            11 => Some(RecordKind::UnknownType),
            _ => None,
        }
    }
}

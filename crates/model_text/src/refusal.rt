ghost use Rattle.std.specs.Prelude.{◌≡◌, IfOk};
ghost use Rattle.model_text.specs.Refusals as spec;

use eb_names::{Bytes, Name};
use itoa::Buffer;
use scope_settings::Limit;
use std::alloc::{AllocError, Global};

/// Why nothing is answered. Places are in bytes.
#[derive(Debug, Drop)]
pub enum Refusal {
    /// The words are no command.
    Words,
    /// The model files have more than 4 MiB.
    TooLong,
    /// A model isn't UTF-8.
    NotUtf8,
    /// No token of a model begins here, the first such place.
    BadToken(u32),
    /// A formula is higher than 200.
    TooDeep,
    /// The tokens are no text; the place is that of a token or the end of the last one.
    Syntax(u32),
    /// The first word here that isn't supported.
    Unsupported(u32),
    /// The first name that is declared a second time.
    DuplicateName(Name),
    /// The first name that is used without a declaration.
    UnknownName(Name),
    /// The identifiers and marks have no types with which each formula is as it is to be.
    TypeClash,
    /// They have types in two different ways.
    TypeOpen,
    /// The first set that is no value, such as `NAT`, where only a value may stand.
    InfiniteSet(u32),
    /// The first limit that is passed.
    ScopeBad(Limit),
    /// There are more than 1,000 queries; or for `check`, not just one.
    QueryCount,
    /// A text asks what isn't answered today, or a tree file has more than 16 MiB.
    NotYet,
}

/// A line of a front and a place.
fn place_line(alloc: Global, front: &[u8], place: u32) -> Result<Bytes, AllocError>
    ensures { IfOk result (λ line. line ≡ spec.place_text front.now place) }
{
    let mut line = Vec::from_slice(alloc, front)?;
    let mut buffer = Buffer::new();
    line.extend_from_slice(buffer.format(place).as_bytes())?;
    line.extend_from_slice(b"\n")?;
    Ok(Bytes::from_vec(line))
}

/// A line of a front and a name.
fn name_line(alloc: Global, front: &[u8], name: &Name) -> Result<Bytes, AllocError>
    ensures { IfOk result (λ line. line ≡ spec.name_text front.now name.now) }
{
    let mut line = Vec::from_slice(alloc, front)?;
    line.extend_from_slice(name.as_str().as_bytes())?;
    line.extend_from_slice(b"\n")?;
    Ok(Bytes::from_vec(line))
}

fn limit_name(limit: Limit) -> &'static str
    ensures { result.now ≡ spec.limit_name limit }
{
    match limit {
        Limit::Int => "int",
        Limit::Size => "size",
        Limit::Depth => "depth",
        Limit::Events => "events",
        Limit::Binder => "binder",
        Limit::Partition => "partition",
        Limit::Element => "element",
        Limit::Bound => "bound",
        Limit::Nodes => "nodes",
    }
}

/// The line of a limit that is passed.
fn limit_line(alloc: Global, limit: Limit) -> Result<Bytes, AllocError>
    ensures { IfOk result (λ line. line ≡ spec.limit_text limit) }
{
    let mut line = Vec::from_slice(alloc, b"refused E10 ScopeBad ")?;
    line.extend_from_slice(limit_name(limit).as_bytes())?;
    line.extend_from_slice(b"\n")?;
    Ok(Bytes::from_vec(line))
}

impl Refusal {
    /// The line that is printed. The only error is want of memory.
    pub fn line(&self, alloc: Global) -> Result<Bytes, AllocError>
        ensures { IfOk result (λ line. line ≡ spec.refusal_text self.now) }
    {
        match self {
            Refusal::Words => Bytes::from_slice(alloc, b"refused E14 Words\n"),
            Refusal::TooLong => Bytes::from_slice(alloc, b"refused E13 TooLong\n"),
            Refusal::NotUtf8 => Bytes::from_slice(alloc, b"refused E1 NotUtf8\n"),
            Refusal::BadToken(place) => place_line(alloc, b"refused E2 BadToken ", *place),
            Refusal::TooDeep => Bytes::from_slice(alloc, b"refused E4 TooDeep\n"),
            Refusal::Syntax(place) => place_line(alloc, b"refused E3 Syntax ", *place),
            Refusal::Unsupported(place) => place_line(alloc, b"refused E12 Unsupported ", *place),
            Refusal::DuplicateName(name) => name_line(alloc, b"refused E6 DuplicateName ", name),
            Refusal::UnknownName(name) => name_line(alloc, b"refused E5 UnknownName ", name),
            Refusal::TypeClash => Bytes::from_slice(alloc, b"refused E7 TypeClash\n"),
            Refusal::TypeOpen => Bytes::from_slice(alloc, b"refused E8 TypeOpen\n"),
            Refusal::InfiniteSet(place) => place_line(alloc, b"refused E9 InfiniteSet ", *place),
            Refusal::ScopeBad(limit) => limit_line(alloc, *limit),
            Refusal::QueryCount => Bytes::from_slice(alloc, b"refused E11 QueryBad count\n"),
            Refusal::NotYet => Bytes::from_slice(alloc, b"refused E15 NotYet\n"),
        }
    }
}

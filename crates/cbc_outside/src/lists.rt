use eb_names::{Bytes, Name};
use sqlite_items::Items;

/// Files by name. Of a repeated name the first counts.
pub type NamedFiles = Items<(Name, Bytes)>;

/// Numbers of calls, counted from 1.
pub type Calls = Items<u64>;

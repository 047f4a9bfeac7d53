// The definitions of tables that are lent, and the types that they name: see specs/ and proofs/.
#![tactic(auto)]

use types::{BorderRecord, Header, RowRecord};

// A table as it is lent: the header, and lists that may hold more items than it asks for.
#[derive(Clone, Copy)]
pub struct TableView<'a> {
    pub header: Header,
    pub nets: &'a [i64],
    pub allocated: &'a [i64],
    pub borders: &'a [BorderRecord],
    pub rows: &'a [RowRecord],
    pub factors: &'a [i64],
}

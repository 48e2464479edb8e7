//! Does the work of the commands of `asn` that compare versions of a type: says whether a type is a
//! later version of an older one, and cuts texts of the newer one to what the older one knows.

mod growth;
mod keeping;
mod pair;
mod versions;

pub use growth::growth_reply;
pub use keeping::KeepLines;
pub use pair::Versions;
pub use versions::versions_of;

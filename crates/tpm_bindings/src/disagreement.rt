/// Why a session can never hold all policy commands of a list: the rules by which they agree, in their order.
#[derive(Clone, Copy, PartialEq, Eq)]
pub enum Disagreement {
    /// Two command codes, where PolicyDuplicationSelect counts as that of Duplicate.
    Code,
    /// No locality of 0 to 7 is in each PolicyLocality.
    Locality,
    /// Two digests of PolicyCpHash.
    CpHash,
    /// Two digests of PolicyNameHash or of the Names of a PolicyDuplicationSelect that includes the object.
    NameHash,
    /// A PolicyCpHash beside a PolicyNameHash or a PolicyDuplicationSelect.
    Kinds,
    /// Two states of PolicyNvWritten.
    NvWritten,
}

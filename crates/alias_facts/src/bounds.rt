// How many variables, sites and fields the writes speak of.

/// Numbers that the variables, the sites and the fields of all writes are below.
#[derive(Clone, Copy, Debug, PartialEq, Eq)]
pub struct Bounds {
    pub vars: usize,
    pub sites: usize,
    pub fields: usize,
}

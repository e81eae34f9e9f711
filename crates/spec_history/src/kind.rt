/// What made a violation necessary, or not.
///
/// True and false sharing are those of Torrellas, Lam and Hennessy, "False Sharing and Spatial Locality in Multiprocessor
/// Caches", 1994; a silent store is that of Lepak and Lipasti, "On the Value Locality of Store Instructions", ISCA 2000.
#[derive(Clone, Copy, PartialEq, Eq)]
pub enum Kind {
    /// The cause changes a byte that the violated epoch had read.
    TrueSharing,
    /// The cause writes a byte that the violated epoch had read, and changes none of these.
    SilentStore,
    /// The cause writes no byte that the violated epoch had read, but a line of one.
    FalseSharing,
    /// The cause is an access to a line in which the violated epoch had stored, beside as many others as its buffer takes.
    FullBuffer,
    /// None of these, or there is no cause.
    Unexplained,
}

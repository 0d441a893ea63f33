//! The comparison of orders.

// Whether two orders are one.
pub(crate) fn are_same(a: &[u32], b: &[u32]) -> bool {
    a == b
}

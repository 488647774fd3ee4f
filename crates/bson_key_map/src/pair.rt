/// A key with its value.
#[derive(Debug, Drop)]
pub struct Pair<V> {
    /// The key.
    pub key: String,
    /// The value.
    pub value: V,
}

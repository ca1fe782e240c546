use flow_base::Text;

/// A response to be written. `allow` and `cache_control` are the fields of these names, where there are
/// any; `close` says that the connection ends after it.
#[derive(Drop)]
pub struct Response {
    pub status: u16,
    pub allow: Option<Text>,
    pub cache_control: Option<Text>,
    pub close: bool,
    pub body: Text,
}

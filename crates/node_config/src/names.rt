//! Names of clusters.
ghost use Rattle.std.specs.Prelude.{◌≡◌};
ghost use Rattle.std.specs.List.{list_all};
ghost use Rattle.node_config.specs.Names as spec;

/// The most bytes that the name of a cluster has.
const CLUSTER_NAME_LIMIT: usize = 63;

fn is_cluster_byte(byte: u8) -> bool
    ensures { result ≡ spec.is_cluster_byte byte }
{
    (b'a' <= byte && byte <= b'z')
        || (b'A' <= byte && byte <= b'Z')
        || (b'0' <= byte && byte <= b'9')
        || byte == b'.'
        || byte == b'-'
}

fn has_cluster_bytes_only(text: &[u8]) -> bool
    ensures { result ≡ list_all spec.is_cluster_byte text.now }
{
    text.iter().all(|byte| is_cluster_byte(*byte))
}

/// Whether the text is the name of a cluster: 1 to 63 letters, digits, `.` and `-`. It takes no memory.
pub fn is_cluster_name(text: &[u8]) -> bool
    ensures { result ≡ spec.is_cluster_name text.now }
{
    !text.is_empty() && text.len() <= CLUSTER_NAME_LIMIT && has_cluster_bytes_only(text)
}

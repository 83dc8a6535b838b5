//! The methods and their paths.

ghost use Rattle.std.specs.Prelude.{◌≡◌, option_copied};
ghost use Rattle.std.specs.List.{find};
ghost use Rattle.std.specs.Str.{bytes_eq};
ghost use Rattle.grpc_meta.specs.Methods.{path_of, method_at};

/// A method that the server has.
#[derive(Clone, Copy, Debug, PartialEq, Eq)]
pub enum Method {
    /// `BigQueryRead`'s `CreateReadSession`.
    CreateReadSession,
    /// `BigQueryRead`'s `ReadRows`.
    ReadRows,
    /// `BigQueryRead`'s `SplitReadStream`.
    SplitReadStream,
    /// `BigQueryWrite`'s `CreateWriteStream`.
    CreateWriteStream,
    /// `BigQueryWrite`'s `AppendRows`.
    AppendRows,
    /// `BigQueryWrite`'s `GetWriteStream`.
    GetWriteStream,
    /// `BigQueryWrite`'s `FinalizeWriteStream`.
    FinalizeWriteStream,
    /// `BigQueryWrite`'s `BatchCommitWriteStreams`.
    BatchCommitWriteStreams,
    /// `BigQueryWrite`'s `FlushRows`.
    FlushRows,
}

/// The methods.
const METHODS: [Method; 9] = [
    Method::CreateReadSession,
    Method::ReadRows,
    Method::SplitReadStream,
    Method::CreateWriteStream,
    Method::AppendRows,
    Method::GetWriteStream,
    Method::FinalizeWriteStream,
    Method::BatchCommitWriteStreams,
    Method::FlushRows,
];

impl Method {
    /// The path of its requests: `/`, the service with its package, `/` and the method's name.
    #[tactic(auto, unfolding(crate::specs::Methods::path_of))]
    pub fn path(self) -> &'static str
        ensures { result.now ≡ path_of self }
    {
        match self {
            Method::CreateReadSession => {
                "/google.cloud.bigquery.storage.v1.BigQueryRead/CreateReadSession"
            }
            Method::ReadRows => "/google.cloud.bigquery.storage.v1.BigQueryRead/ReadRows",
            Method::SplitReadStream => {
                "/google.cloud.bigquery.storage.v1.BigQueryRead/SplitReadStream"
            }
            Method::CreateWriteStream => {
                "/google.cloud.bigquery.storage.v1.BigQueryWrite/CreateWriteStream"
            }
            Method::AppendRows => "/google.cloud.bigquery.storage.v1.BigQueryWrite/AppendRows",
            Method::GetWriteStream => {
                "/google.cloud.bigquery.storage.v1.BigQueryWrite/GetWriteStream"
            }
            Method::FinalizeWriteStream => {
                "/google.cloud.bigquery.storage.v1.BigQueryWrite/FinalizeWriteStream"
            }
            Method::BatchCommitWriteStreams => {
                "/google.cloud.bigquery.storage.v1.BigQueryWrite/BatchCommitWriteStreams"
            }
            Method::FlushRows => "/google.cloud.bigquery.storage.v1.BigQueryWrite/FlushRows",
        }
    }
}

/// The first of these methods that has this path.
fn first_at<'a>(methods: &'a [Method], path: &[u8]) -> Option<&'a Method>
    ensures { option_copied result ≡ find (λ m. bytes_eq (path_of m) path.now) methods.now }
{
    methods
        .iter()
        .find(|method| method.path().as_bytes() == path)
}

/// The method of a path.
#[tactic(auto, unfolding(crate::specs::Methods::methods))]
pub(crate) fn method_at(path: &[u8]) -> Option<Method>
    ensures { result ≡ method_at path.now }
{
    first_at(&METHODS, path).copied()
}

// What `--version` says. `make digest` writes the digest, and `make lint` holds it to the sources.

/// The version of the release, and the first 16 hexadecimal digits of the SHA-256 of the program's sources.
pub(crate) const VERSION: &str = "1.0.0 (sources 0f6c7d886f076c7c)";

//! The names of the modules that Node brings itself (Node.js, Modules: built-in modules).
ghost use Rattle.std.specs.Prelude.{◌≡◌, bytes_eq};
ghost use Rattle.std.specs.List.{list_any};
ghost use Rattle.node_spec.specs.BuiltinNames.{is_builtin};
ghost use Rattle.node_resolve.specs.MainFiles.{texts_of};

use crate::texts::same;

static NAMES: [&str; 54] = [
    "assert",
    "assert/strict",
    "async_hooks",
    "buffer",
    "child_process",
    "cluster",
    "console",
    "constants",
    "crypto",
    "dgram",
    "diagnostics_channel",
    "dns",
    "dns/promises",
    "domain",
    "events",
    "fs",
    "fs/promises",
    "http",
    "http2",
    "https",
    "inspector",
    "inspector/promises",
    "module",
    "net",
    "os",
    "path",
    "path/posix",
    "path/win32",
    "perf_hooks",
    "process",
    "punycode",
    "querystring",
    "readline",
    "readline/promises",
    "repl",
    "stream",
    "stream/consumers",
    "stream/promises",
    "stream/web",
    "string_decoder",
    "sys",
    "timers",
    "timers/promises",
    "tls",
    "trace_events",
    "tty",
    "url",
    "util",
    "util/types",
    "v8",
    "vm",
    "wasi",
    "worker_threads",
    "zlib",
];

/// Whether the text is one of these names.
#[tactic(auto, unfolding(node_spec::specs::BuiltinNames::is_builtin))]
pub fn is_builtin(text: &str) -> bool
    ensures { result ≡ is_builtin text.now }
{
    is_among(text, &NAMES)
}

#[tactic(auto, using(crate::proofs::BuiltinLemmas::among))]
fn is_among(text: &str, names: &[&str]) -> bool
    ensures { result ≡ list_any (bytes_eq text.now) (texts_of names.now) }
{
    match names.split_first() {
        None => false,
        Some((name, more)) => same(text, name) || is_among(text, more),
    }
}

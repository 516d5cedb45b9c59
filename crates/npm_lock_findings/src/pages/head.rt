//! The head of a page.

/// The head of a page up to its title: the page asks for nothing from a network, runs no script, and is light or dark as its reader's
/// system is.
pub const HEAD: &str = "\
<!DOCTYPE html>
<html lang=\"en\">
<head>
<meta charset=\"utf-8\">
<meta name=\"viewport\" content=\"width=device-width, initial-scale=1\">
<meta http-equiv=\"Content-Security-Policy\" content=\"default-src 'none'; style-src 'unsafe-inline'\">
<title>";

/// What follows the title, up to the first line.
pub const REST: &str = "\
: lock files</title>
<style>
:root{color-scheme:light dark;--text:#1b1f24;--page:#fff;--soft:#57606a;--line:#d0d7de;--box:#f6f8fa;--red:#b42318;--green:#1a7f37}
@media (prefers-color-scheme:dark){:root{--text:#e6edf3;--page:#0d1117;--soft:#9198a1;--line:#30363d;--box:#161b22;--red:#ff7b72;--green:#3fb950}}
*{box-sizing:border-box}
body{margin:0 auto;padding:1rem;max-width:60rem;font:16px/1.5 system-ui,sans-serif;color:var(--text);background:var(--page);overflow-wrap:anywhere}
h1{margin:.5rem 0;font-size:1.6rem}
h2{margin:2rem 0 .5rem;padding-top:1rem;border-top:2px solid var(--line);font-size:1.3rem}
h3{margin:1.5rem 0 .25rem;font-size:1.1rem}
h4{margin:1rem 0 .25rem;font-size:1rem}
h2,h4{font-family:ui-monospace,monospace}
p{margin:.25rem 0}
.soft,small{color:var(--soft)}
.counts{display:grid;grid-template-columns:repeat(auto-fit,minmax(7rem,1fr));gap:.5rem;margin:.75rem 0}
.counts p{margin:0;padding:.5rem;font-size:.8125rem;border:1px solid var(--line);border-radius:.4rem;background:var(--box)}
b,small{display:block}
a{color:inherit}
nav ul{margin:.5rem 0;padding-left:1.25rem}
b{font-size:1.3rem}
.row{padding:.4rem .75rem;border-left:3px solid var(--red);background:var(--box)}
.note{border-left-color:var(--soft)}
.fine{color:var(--green)}
.bad{color:var(--red);font-weight:600}
@media print{nav{display:none}body{max-width:none;padding:0;font-size:10pt}.row,.counts p{break-inside:avoid}h2,h3,h4{break-after:avoid}}
</style>
</head>
<body>
<main>
";

//! What the program says of itself.

/// What `--version` writes.
pub const VERSION: &str = "npm_pick 1.0.0\n";

/// What `--help` writes.
pub const HELP: &str = "\
Writes the version of a package that npm would install.

Usage: npm_pick [OPTIONS] --packument FILE [SPEC]
Usage: npm_pick [OPTIONS] --packuments FOLDER --lock FILE --outdated
Usage: npm_pick [OPTIONS] --packuments FOLDER [--manifest FILE].. [--lock FILE] --keep

SPEC is a version, a range or a tag, as in a package.json. With no SPEC it is *, as for npm install NAME.

With --outdated it writes a line for each dependency of the root that is outdated: its name, and the versions
that are installed, wanted and the latest, as npm outdated does. MISSING stands for what is not installed.

With --keep it writes the versions that a mirror keeps for package.json files and a lock file, a line NAME@VERSION each,
in the order of the names and then of the versions: for each spec the version that npm would install, and always what
is installed, so that npm ci finds it. A spec that no version fits adds none. The specs of a name count together, and
an alias counts for the package that it names.

Options, of which the value may also be in the same word, as in --node=20:
  --packument FILE   The document of the package, as a registry serves it. If FILE is -, standard input is read.
                     Example: npm_pick --packument left-pad.json '^1.2'
  --packuments FOLDER
                     A folder of such documents: NAME.json or NAME/package.json, and @SCOPE/NAME alike. Only regular
                     files are read.
                     Example: npm_pick --packuments mirror --lock package-lock.json --outdated
  --lock FILE        A package-lock.json of version 2 or 3. If FILE is -, standard input is read.
                     Example: npm_pick --packuments mirror --lock package-lock.json --outdated
  --manifest FILE    A package.json, of which dependencies, devDependencies, optionalDependencies and peerDependencies
                     count. It may be given more than once. If FILE is -, standard input is read.
                     Example: npm_pick --packuments mirror --manifest package.json --keep
  --outdated         Compare the lock file with the documents.
                     Example: npm_pick --packuments mirror --lock package-lock.json --outdated
  --keep             List what a mirror keeps for the manifests, and for all packages of the lock file, with what is
                     installed.
                     Example: npm_pick --packuments mirror --manifest package.json --lock package-lock.json --keep
  --all              With --outdated: the dependencies of all packages, and not only of the root. With --keep: each
                     version that a spec admits, and not only the one that npm would install.
                     Example: npm_pick --packuments mirror --lock package-lock.json --outdated --all
  --before TIME      Leave out versions that were published after this time. A date is the beginning of that
                     day in UTC. Versions without a time count as published.
                     Example: npm_pick --before 2024-03-01 --packument left-pad.json '^1.2'
  --avoid RANGE      Pick a version of this range only if no other is left.
                     Example: npm_pick --avoid '<1.3' --packument left-pad.json '^1.2'
  --avoid-strict     With --avoid: pick no version of RANGE. If SPEC has no other, one that ^ of it admits is
                     picked, or else one of all versions.
                     Example: npm_pick --avoid '<1.3' --avoid-strict --packument left-pad.json '~1.2'
  --include-staged   Pick from stagedVersions of the document too.
                     Example: npm_pick --include-staged --packument left-pad.json '^1.2'
  --node VERSION     Prefer versions whose engines.node admits this version of Node. 20 means 20.0.0, and v20.11
                     means 20.11.0. With no --node each version of Node is fine.
                     Example: npm_pick --node 20 --packument left-pad.json '^1.2'
  --npm VERSION      The same for engines.npm and the version of npm.
                     Example: npm_pick --npm 10.8 --packument left-pad.json '^1.2'
  --tag TAG          Prefer the version of this tag if SPEC admits it. The default is latest.
                     Example: npm_pick --tag next --packument left-pad.json '>=1'
  --format FORMAT    text: write words. json: write a JSON object a line, and with --keep one JSON list. The default is
                     text.
                     Example: npm_pick --format json --packument left-pad.json '^1.2'
  -h, --help         Write this text.
                     Example: npm_pick --help
  -V, --version      Write the version of this program.
                     Example: npm_pick --version

The exit status is 0 if a version is picked, nothing is outdated or each package to keep has a document with what is
installed of it, 1 if none is picked, something is outdated or such a document or version is not there, and 2 if nothing
was asked: an argument is wrong, or a file is not read. A line on standard error says why nothing is picked or asked,
and how many dependencies have no document. With --keep a line says so of each package without a document, of each
installed version that is not in one, and of each dependency that asks no registry.
";

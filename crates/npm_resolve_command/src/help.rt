//! What the program says of itself.

/// What `--version` writes.
pub const VERSION: &str = "npm_resolve 1.0.0\n";

/// What `--help` writes.
pub const HELP: &str = "\
Writes the packages that npm would install, each with its folder, or says what cannot be met.

Usage: npm_resolve [OPTIONS] --manifest FILE.. --packuments FOLDER

It writes a line FOLDER NAME@VERSION for each package in npm's tree of folders, and FOLDER -> FOLDER for a link. Before,
it checks that each dependency of each package is met by what it sees. If no tree is found, it writes what a package asks
for that cannot be met, and npm's pick for each. If peers decide what the root cannot get, it also writes why, and what
would fit.

With --peers or --flat it selects one version of each package, so that all of the ranges are met: what npm install
--strict-peer-deps must find, or stops at with ERESOLVE. Each version is the best one with which the others fit: the
version of the tag, or else the newest. It writes a line NAME@VERSION for each. If no versions fit together, it writes
which dependencies cannot be installed together, and why; without any one of them the others can. For each it names a
version outside its range that would fit, if there is one.

Options, of which the value may also be in the same word, as in --steps=1000:
  --manifest FILE    A package.json, of which dependencies, devDependencies, optionalDependencies and peerDependencies
                     count. The first one is the root's, and its overrides count. Each other one is that of a workspace,
                     whose folder is below the root's. With --peers or --flat it may be anywhere, and of overrides a rule
                     for all versions of a name counts, as {\"a\": \"1.0.0\"}. If FILE is -, standard input is read.
                     Example: npm_resolve --manifest package.json --packuments mirror
  --packuments FOLDER
                     A folder with the documents of packages, as a registry serves them: NAME.json or NAME/package.json,
                     and @SCOPE/NAME alike. Only regular files are read.
                     Example: npm_resolve --manifest package.json --packuments mirror
  --peers            Select one version of each package that the manifests ask for, and of peers. Of --peers and --flat
                     the last one counts.
                     Example: npm_resolve --peers --manifest package.json --packuments mirror
  --flat             Select one version of each package that is installed, as bundles for browsers and import maps need
                     it: dependencies of selected versions count too. Their optionalDependencies only limit, and their
                     devDependencies never count. If no versions fit together, npm may still install several of a
                     package.
                     Example: npm_resolve --flat --manifest package.json --packuments mirror
  --omit GROUP       With --peers or --flat: leave out devDependencies (dev), optionalDependencies (optional), or all peers
                     (peer). It may be given more than once.
                     Example: npm_resolve --flat --omit dev --omit optional --manifest package.json --packuments mirror
  --before TIME      Leave out versions that were published after this time. A date is the beginning of that
                     day in UTC. Versions without a time count as published.
                     Example: npm_resolve --before 2024-03-01 --manifest package.json --packuments mirror
  --tag TAG          Prefer the version of this tag. The default is latest.
                     Example: npm_resolve --tag next --manifest package.json --packuments mirror
  --node VERSION     Prefer versions whose engines.node admits this version of Node. 20 means 20.0.0, and v20.11
                     means 20.11.0. With no --node each version of Node is fine.
                     Example: npm_resolve --node 20 --manifest package.json --packuments mirror
  --os OS            With --peers or --flat: name the selected versions whose os does not admit this system, as linux or
                     win32.
                     Example: npm_resolve --flat --os linux --manifest package.json --packuments mirror
  --cpu CPU          With --peers or --flat: name the selected versions whose cpu does not admit this processor, as x64 or
                     arm64.
                     Example: npm_resolve --flat --cpu x64 --manifest package.json --packuments mirror
  --libc LIBC        With --peers or --flat: name the selected versions whose libc does not admit this C library, glibc
                     or musl.
                     Example: npm_resolve --flat --libc glibc --manifest package.json --packuments mirror
  --lowest           With --peers or --flat: prefer the lowest versions, those that the lower ends of the ranges allow. The
                     tag does not count, and deprecated versions still come last.
                     Example: npm_resolve --flat --lowest --manifest package.json --packuments mirror
  --lock FILE        A package-lock.json or npm-shrinkwrap.json of version 2 or 3. Its versions stay where they can; with
                     --peers or --flat that in node_modules/NAME comes first. If FILE is -, standard input is read.
                     Example: npm_resolve --lock package-lock.json --manifest package.json --packuments mirror
  --steps N          Stop after N steps: a step places a package, and with --peers or --flat it rules out versions of one
                     package. The default is 10000000.
                     Example: npm_resolve --steps 100000 --manifest package.json --packuments mirror
  --format FORMAT    text: write lines for a person. json: write a JSON object. lock: write a package-lock.json of version
                     3, with --flat for one manifest and no --omit; if there is none, the lines of text. The default is
                     text.
                     Example: npm_resolve --format json --manifest package.json --packuments mirror
                     Example: npm_resolve --format lock --manifest package.json --packuments mirror
  -h, --help         Write this text.
                     Example: npm_resolve --help
  -V, --version      Write the version of this program.
                     Example: npm_resolve --version

The exit status is 0 if there is a tree or versions fit together, 1 if not, 3 if the steps were used up before either was
known, and 2 if nothing was written: an argument is wrong, a file is not read, npm stops with EOVERRIDE, two workspaces
have one name, or a rule in overrides is not read for a lock file of --flat. A line on standard error says why. Others
name what is left out of a tree: optional dependencies, and what a package bundles. With --peers or --flat they name each
dependency that asks no registry, as a folder or a repository, and each of optionalDependencies of which no version fits:
these are left out; each package whose rule in overrides is not read, and each that is not for --os, --cpu or --libc.
";

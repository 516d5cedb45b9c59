//! What `--help` says of each option.

pub const FILE: &str = "\
A package-lock.json. With no FILE, and if FILE is -, standard input is read.
With several each line of the formats text and json names its FILE.";

pub const NODE: &str = "\
Also check engines.node of each package against this version of Node.
20 means 20.0.0, and v20.11 means 20.11.0.
Example: npm_lock_check --node 20 package-lock.json";

pub const MANIFEST: &str = "\
The package.json of the root: write where it and the lock file do not ask for the same, and check
the lock file for what the package.json asks for. The package.json of each workspace, below the
folder of FILE, is checked alike if it is there. Goes with one lock file.
Example: npm_lock_check --manifest package.json package-lock.json";

pub const EXACT: &str = "\
The exit status is also 1 if FILE and the lock file do not ask for the same. npm ci installs such a
lock file, if it has what FILE asks for.
Example: npm_lock_check --manifest package.json --exact package-lock.json";

pub const OUTSIDE: &str = "\
Also read a package.json that is not below the folder of FILE, or is no regular file.
Example: npm_lock_check --manifest package.json --outside package-lock.json";

pub const UNCHECKED: &str = "\
Also list what is not checked, and why: dependencies, manifests and workspaces.
Example: npm_lock_check --unchecked package-lock.json";

pub const STRICT: &str = "\
The exit status is also 1 if something is not checked, which is listed then. Also --sources.
Example: npm_lock_check --strict package-lock.json";

pub const IGNORE: &str = "\
Leave out problems of this kind: group (package.json and the lock file do not ask for the same),
missing, invalid, peer-local or engine. May be given several times.
Example: npm_lock_check --ignore peer-local --ignore engine package-lock.json";

pub const OMIT: &str = "\
Leave out the packages that npm ci --omit GROUP does not install, and what is in that group of
dependencies: dev or optional. What npm installs below a linked folder that is no workspace
counts, whatever its group. Also write each package that is left out, though it is needed. May
be given several times.
Example: npm_lock_check --omit dev --omit optional package-lock.json";

pub const SOURCES: &str = "\
Also write each package whose address is that of another package or is not encrypted, and each
that npm downloads without integrity. An address of another version is always written.
Example: npm_lock_check --sources package-lock.json";

pub const REGISTRY: &str = "\
Also --sources, and write each package whose address is below no URL that is given here. May be
given several times.
Example: npm_lock_check --registry https://registry.npmjs.org package-lock.json";

pub const ADVISORIES: &str = "\
Also write each installed package that a security advisory of this file hits, and a version that
none hits. The file is in OSV's form, or in that of npm's bulk endpoint.
Example: npm_lock_check --advisories advisories.json package-lock.json";

pub const ALLOW: &str = "\
The file of advisories may have none. Without this option such a file is an error.
Example: npm_lock_check --advisories none.json --allow-no-advisories package-lock.json";

pub const SEVERITY: &str = "\
Leave out advisories that are less severe: info, low, moderate, high or critical. The default is
info, which leaves none out.
Example: npm_lock_check --advisories advisories.json --severity high package-lock.json";

pub const EXCEPTIONS: &str = "\
Leave out each advisory that FILE excepts for a package, and write the package and the reason on
standard error. FILE is in TOML: it has a table [[exceptions]] with id, package and reason for each.
A day, as until = 2027-03-01, is the last one, in UTC, on which the exception applies.
An exception that is used up, or that applies to nothing, is written there too.
Example: npm_lock_check --advisories advisories.json --exceptions exceptions.toml package-lock.json";

pub const FORMAT: &str = "\
text: write each problem as a sentence. json: write it as a JSON object. github: write it as an
annotation of GitHub Actions. sarif: write all of them as one SARIF 2.1.0 log, of all lock files.
html: write one page for a browser, which also lists what is not checked. junit: write one JUnit
report, for Jenkins and GitLab. These four have the line in FILE, and all but junit the column.
The default is text if standard output is a terminal, and json if not.
Example: npm_lock_check --format text package-lock.json > problems.txt";

pub const AFTER: &str = "\
The value of an option may also be in the same word, as in --node=20. If an option is given twice,
its last value counts. --manifest, --advisories and --exceptions name a file that is read, and are
given once.

The exit status is 0 if nothing was found, 1 if something was, and 2 if the file was not checked.
With several it is the worst of all: each of the others is checked nevertheless.
Standard error says how many advisories were read.";

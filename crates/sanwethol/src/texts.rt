// What the program tells of itself.

/// The answer to `--help`.
pub const HELP: &str = "Builds and searches indexes of documents.

sanwethol build PATH PAGES         reads documents from standard input, and writes their index to a file
sanwethol search PATH FIELD QUERY  prints the numbers of the documents of an index that satisfy a query
sanwethol ask FIELD QUERY          reads documents from standard input, and prints the numbers of those that satisfy a query
sanwethol tree QUERY               prints the tree of a query as JSON
sanwethol gen SEED COUNT           not there yet
sanwethol --help                   prints this text
sanwethol --version                prints the version
";

/// The answer to `--version`.
pub const VERSION: &str = "sanwethol, proved with rattle-kit-13f logic dac8208d650f15bf
";

// The texts that the program prints about itself.

/// The error line for words that are not a command.
pub const USAGE: &[u8] =
    b"usage: key LOG_N R P LEN SALT_HEX | hash phc|mcf LOG_N R P SALT_HEX [LEN] | verify HASH | rehash phc|mcf LOG_N R P LEN SALT_HEX HASH\n";

/// The output of `--version`.
pub const VERSION: &str = "scrypt_tool 1.0.0\n";

/// The output of `--help`.
pub const HELP: &str = "\
scrypt_tool: scrypt keys (RFC 7914) and password hashes\n\
\n\
usage: scrypt_tool [OPTION..] COMMAND ..\n\
\x20 key LOG_N R P LEN SALT_HEX\n\
\x20     prints the key of LEN bytes in hexadecimal\n\
\x20 hash phc|mcf LOG_N R P SALT_HEX [LEN]\n\
\x20     prints a hash\n\
\x20 verify HASH\n\
\x20     prints ok, or no for another password\n\
\x20 rehash phc|mcf LOG_N R P LEN SALT_HEX HASH\n\
\x20     verifies, and prints a new hash in place of ok if HASH is weaker\n\
The password is the whole standard input. With --strip-newline the newline at\n\
its end, LF or CR LF, is cut off.\n\
\n\
options for key:\n\
\x20 --raw              print the bytes of the key and no newline, not to a terminal\n\
\x20 --progress         draw a bar on the standard error, if that is a terminal\n\
options for hash and rehash:\n\
\x20 --generate-salt    draw a salt of 16 bytes: then leave SALT_HEX out\n\
and for hash:\n\
\x20 --recommended      LOG_N R P are 17 8 1 and a salt is drawn: hash phc|mcf\n\
options for verify and rehash, as an untrusted HASH chooses its own cost:\n\
\x20 --default-limits   all three limits below; without an option there are none\n\
\x20 --max-mem=N        the maximum memory in bytes (a table of 256 MiB fits), and\n\
\x20 --max-work=N       the maximum work, 4 * (2^LOG_N + 32) * R * P (four times that of\n\
\x20                    17 8 1), or for rehash what the new hash needs if that is more\n\
\x20 --min-key-len=N    the minimum length of the key in bytes (16 for verify, 0 for rehash)\n\
and because other users can see arguments:\n\
\x20 --hash-file=FILE   read HASH from FILE: then leave HASH out\n\
without a command:\n\
\x20 -h, --help, --version\n\
\n\
Statuses: 0 done or ok, 1 no, 2 refused, 3 out of memory, 4 input or output failed.\n\
";

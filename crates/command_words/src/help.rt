//! What is printed for people.

// The table of commands, for people. Whoever adds a command to the table adds its lines here, and
// keeps them within 40 lines of 80 columns.

/// What `--help` prints: every command with its words, its options with their defaults, and an
/// example of each.
pub const HELP: &str = "\
usage: dshark COMMAND WORDS

  count FIELD WINDOW CAPTURE
      Groups the records of CAPTURE that have the same FIELD within WINDOW
      nanoseconds (0 to 3600000000000), and prints the report.
      dshark count 'ipv4[0].id' 1000000 trace.pcap
  stack CAPTURE [--port N] [--field FIELD]
      Prints the headers of each packet of CAPTURE, or its FIELD alone.
      --port N         the UDP port of VXLAN, 1 to 65535 (default 4789)
      --field FIELD    the field to print (default: the headers)
      dshark stack trace.pcap --field 'ipv4[-1].src'
  check JOB
      Reads the job in the file JOB, and prints it in its canonical form.
      dshark check job.json
  central JOB
      Reads every capture that JOB names, and prints groups, delays and counts.
      dshark central job.json
  run JOB [--parsers N] [--groupers N] [--processors N] [--credits N]
      Prints the report of central, line by line as soon as each is settled.
      --parsers N      how many nodes read captures, 1 to 16 (default 2)
      --groupers N     how many gather the copies, 1 to 16 (default 2)
      --processors N   how many judge them, 1 to 16 (default 2)
      --credits N      frames under way on a link, 1 to 1024 (default 16)
      dshark run job.json --parsers 4
  sample N [the options of run]
      Runs over captures made of the number N (below 2^64), and prints totals.
      dshark sample 7
  --help
      Prints this text.
      dshark --help
  --version
      Prints the version.
      dshark --version

FIELD is kind[index].name, as ipv4[0].ttl or, counted from the innermost header,
udp[-1].dport. An option stands anywhere behind the command, at most once, as
two words --name VALUE or as one word --name=VALUE. Numbers are decimal.
";

/// What `--version` prints.
pub const VERSION_LINE: &str = "dshark 0.1.0\n";

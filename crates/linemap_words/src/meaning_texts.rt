//! What each refusal means, what usually causes it, and what to do: by its letter, from number 1
//! on.

/// The texts of E1 to E33: debug information that can't be read.
pub const DEBUG_INFORMATION: [&str; 33] = [
    "E1: out of memory.
Usual cause: a limit on memory (ulimit -v, a container), or a very large file.
What to do: allow more memory, and ask again. What was asked before isn't lost.
",
    "E2: the bytes end before a value does.
Usual cause: a file that was cut short, or damaged debug information.
What to do: copy or build the file again; readelf --debug-dump shows where its sections end.
",
    "E3: an unsigned LEB128 number has more bytes or bits than are read (DWARF 5, 7.6).
Usual cause: damaged debug information, or a value that isn't of the form its declaration names.
What to do: build the file again. Where it comes so from a compiler, report it to its authors.
",
    "E4: a signed LEB128 number has more bytes or bits than are read (DWARF 5, 7.6).
Usual cause: damaged debug information, or a value that isn't of the form its declaration names.
What to do: build the file again. Where it comes so from a compiler, report it to its authors.
",
    "E5: a length from 0xfffffff0 to 0xfffffffe, which the standard reserves (DWARF 5, 7.4).
Usual cause: damaged debug information, or a tool that patched a section.
What to do: build the file again.
",
    "E6: an offset or a length is larger than this machine's addresses can be.
Usual cause: damaged debug information.
What to do: build the file again.
",
    "E7: an address has a size other than 1, 2, 4 or 8 bytes.
Usual cause: damaged debug information, or a machine whose addresses have another size.
What to do: build the file again; other sizes of addresses aren't read.
",
    "E8: an abbreviation has the tag 0 (DWARF 5, 7.5.3).
Usual cause: damaged debug information, or .debug_info and .debug_abbrev of two different files.
What to do: build the file again; see that no tool replaced one of its sections.
",
    "E9: an abbreviation has an attribute with the name 0 and a form (DWARF 5, 7.5.3).
Usual cause: damaged debug information, or .debug_info and .debug_abbrev of two different files.
What to do: build the file again; see that no tool replaced one of its sections.
",
    "E10: an abbreviation has an attribute with a name and the form 0 (DWARF 5, 7.5.3).
Usual cause: damaged debug information, or .debug_info and .debug_abbrev of two different files.
What to do: build the file again; see that no tool replaced one of its sections.
",
    "E11: an abbreviation says neither that its entries have children nor that they have none
(DWARF 5, 7.5.3).
Usual cause: damaged debug information, or .debug_info and .debug_abbrev of two different files.
What to do: build the file again; see that no tool replaced one of its sections.
",
    "E12: a code occurs twice in a table of abbreviations (DWARF 5, 7.5.3).
Usual cause: damaged debug information, or tables that a tool joined without numbering them anew.
What to do: build the file again.
",
    "E13: an entry has a code that its unit's table of abbreviations lacks (DWARF 5, 7.5.2).
Usual cause: damaged debug information, or .debug_info and .debug_abbrev of two different files.
What to do: build the file again; see that no tool replaced one of its sections.
",
    "E14: an attribute has a form that can't be read here (DWARF 5, 7.5.6).
Usual cause: damaged debug information, or a form of a newer version or of another vendor.
What to do: build the file for DWARF 2 to 5 (gcc -gdwarf-5), without extensions.
",
    "E15: an implicit constant is named through an indirect form (DWARF 5, 7.5.3).
Usual cause: damaged debug information. Compilers don't write such values.
What to do: build the file again.
",
    "E16: a unit, a line program or a table has a version that isn't read. DWARF 2 to 5 are.
Usual cause: damaged debug information, or a version that is newer than 5.
What to do: build the file for DWARF 2 to 5 (gcc -gdwarf-5).
",
    "E17: a unit has a type that the standard doesn't number (DWARF 5, 7.5.1).
Usual cause: damaged debug information.
What to do: build the file again.
",
    "E18: addresses have segments (a segment selector size other than 0).
Usual cause: damaged debug information, or a machine with segmented addresses.
What to do: build the file again; segments aren't read.
",
    "E19: an attribute names a place outside the entries of its unit.
Usual cause: damaged debug information, or a tool that removed entries that others name.
What to do: build the file again.
",
    "E20: an attribute names a place where no entry begins.
Usual cause: damaged debug information, or a supplementary file of another build.
What to do: build the file again, or name the supplementary file that was made with it (--sup).
",
    "E21: a unit has no root entry.
Usual cause: damaged debug information, or a unit that a tool emptied.
What to do: build the file again.
",
    "E22: an address is larger than its size allows.
Usual cause: damaged debug information, or a range that goes past the last address.
What to do: build the file again.
",
    "E23: a range list has an entry that the standard doesn't number (DWARF 5, 7.25).
Usual cause: damaged debug information, or an offset that names no list.
What to do: build the file again.
",
    "E24: a location list has an entry that the standard doesn't number (DWARF 5, 7.7.3).
Usual cause: damaged debug information, or an offset that names no list.
What to do: build the file again.
",
    "E25: a line program's shortest instruction has 0 bytes (DWARF 5, 6.2.4).
Usual cause: damaged debug information, or an assembler that was handed wrong numbers.
What to do: build the file again.
",
    "E26: a line program has 0 operations in an instruction (DWARF 5, 6.2.4).
Usual cause: damaged debug information, or an assembler that was handed wrong numbers.
What to do: build the file again.
",
    "E27: a line program's special opcodes divide by a line range of 0 (DWARF 5, 6.2.4).
Usual cause: damaged debug information, or an assembler that was handed wrong numbers.
What to do: build the file again.
",
    "E28: a line program's special opcodes begin at 0 (DWARF 5, 6.2.4).
Usual cause: damaged debug information, or an assembler that was handed wrong numbers.
What to do: build the file again.
",
    "E29: a line program doesn't say where the path of its directories or files is, or says it twice
(DWARF 5, 6.2.4).
Usual cause: damaged debug information.
What to do: build the file again.
",
    "E30: a name or a directory isn't text.
Usual cause: damaged debug information, or a form of another vendor.
What to do: build the file for DWARF 2 to 5 (gcc -gdwarf-5), without extensions.
",
    "E31: a text isn't UTF-8.
Usual cause: sources or folders whose names are in another encoding.
What to do: nothing, as a rule: a lookup prints such names with a mark for each wrong byte.
",
    "E32: a sum of offsets or lengths is past 64 bits.
Usual cause: damaged debug information.
What to do: build the file again.
",
    "E33: a load was answered for a unit that isn't there.
Usual cause: a program that answers a context's load to another context.
What to do: answer each load to the context that asked for it.
",
];

/// The texts of W1 to W10: a line program that can't be written.
pub const WRITING: [&str; 10] = [
    "W1: out of memory.
Usual cause: a limit on memory (ulimit -v, a container), or a table of strings past its limit.
What to do: allow more memory, and write again.
",
    "W2: a number doesn't fit the bytes that it is written in.
Usual cause: a section past 4 GiB in the 32-bit format, or an address above the address size.
What to do: write the 64-bit format, or larger addresses.
",
    "W3: a write begins after the end of what was written.
Usual cause: an offset of another section.
What to do: write at an offset that the same writer returned.
",
    "W4: a write begins within what was written, and ends past it.
Usual cause: a value of another width than the one that it replaces.
What to do: replace a value by one of the same width.
",
    "W5: a length that the 32-bit format reserves, from 0xfffffff0 on (DWARF 5, 7.4).
Usual cause: a unit of nearly 4 GiB.
What to do: write the 64-bit format, or smaller units.
",
    "W6: a version other than 2 to 5.
Usual cause: an encoding whose version was never set.
What to do: ask for a version from 2 to 5.
",
    "W7: a number is to be written in other than 1, 2, 4 or 8 bytes.
Usual cause: an encoding whose address size was never set.
What to do: ask for one of these widths.
",
    "W8: the texts of one list of directories or files have two forms.
Usual cause: texts of .debug_str beside texts of .debug_line_str or of the list itself.
What to do: give all texts of the list in one form.
",
    "W9: the version can't express what is to be written.
Usual cause: texts of .debug_line_str, MD5 sums or embedded sources before version 5.
What to do: ask for version 5, or leave these out.
",
    "W10: a symbol takes the place of an address, and the writer can't relocate it.
Usual cause: a program for an object file, written by a writer of finished files.
What to do: give addresses as numbers.
",
];

/// The texts of B1 to B20: a text that is no table. docs/TABLE.md has each with an example.
pub const TABLES: [&str; 20] = [
    "B1: out of memory, for the table.
Usual cause: a limit on memory (ulimit -v, a container), or a very large table.
What to do: allow more memory.
",
    "B2: the text isn't JSON.
Usual cause: a comma after the last item, a comment, a file that was cut, or no UTF-8.
What to do: try a tool that shows the place, as python3 -m json.tool TABLE.
",
    "B3: the JSON has another shape than a table.
Usual cause: a key that is missing or misspelled, a text for a number, or a negative number.
What to do: compare it with docs/table.schema.json, which says what a key holds.
",
    "B4: a range ends at or below its begin.
Usual cause: ends that name the last address of a range, where they are to name the next one.
What to do: write [begin, end), where the end is the first address that isn't in the range.
",
    "B5: an address is 0, or above 2^64 - 3.
Usual cause: code that was removed (address 0), or addresses that count from 0.
What to do: leave removed code out; let addresses begin at 1 or above.
",
    "B6: a unit, a function or a call has no range.
Usual cause: a function that was inlined everywhere, and has no code of its own.
What to do: leave it out, or give it the ranges of its code.
",
    "B7: ranges of units overlap, of two or of one.
Usual cause: units that share functions which the linker kept once.
What to do: give the shared code to one of them.
",
    "B8: a function's range lies in no single range of its unit.
Usual cause: a unit whose ranges lack a section, as that of cold code.
What to do: add the range to the unit, or join ranges of the unit that meet.
",
    "B9: ranges of functions of one unit overlap.
Usual cause: a function that is listed twice, or under two names.
What to do: list it once.
",
    "B10: a call's range lies in no single range of the function or call that contains it.
Usual cause: a call under the wrong function, or a range that crosses a gap of the function's.
What to do: put the call where it belongs, or split its range at the gap.
",
    "B11: ranges of calls side by side overlap.
Usual cause: a call that is inlined into another is listed beside it.
What to do: put it into the other's calls.
",
    "B12: the addresses of a sequence lie in no single range of its unit.
Usual cause: a unit whose ranges lack a section, or one sequence over two sections.
What to do: add the range to the unit, or end the sequence where a range ends.
",
    "B13: sequences of one unit overlap.
Usual cause: a sequence that is listed twice, or an end that is too high.
What to do: end a sequence at the first address after its code.
",
    "B14: a sequence has no rows, or its rows go back, or a row isn't below the end.
Usual cause: rows that aren't sorted by address, or an end that names the last row.
What to do: sort the rows; let the end be the first address after the code.
",
    "B15: a line or a column is 0, or above 2^32 - 1.
Usual cause: 0 for code that the compiler added, or columns that count from 0.
What to do: leave such rows out, or give them the line that they belong to; count from 1.
",
    "B16: a row or a call names a file that its unit doesn't have.
Usual cause: files that are counted from 1.
What to do: count the unit's files from 0.
",
    "B17: a directory or a name is empty, or has a zero byte.
Usual cause: a file or a function without a name.
What to do: name it, for a directory . if need be.
",
    "B18: a unit's directory has no root.
Usual cause: a relative path.
What to do: write the whole path, as /home/me/project or C:\\project.
",
    "B19: calls are nested more than 50 deep.
Usual cause: a list of calls where each was put into the one before it.
What to do: put a call only into the one that it was inlined into.
",
    "B20: a row's discriminator is above 2^32 - 1.
Usual cause: a hash in its place.
What to do: number the rows of a line from 0.
",
];

/// The texts of M1 and M2: a table whose debug information isn't emitted.
pub const EMISSION: [&str; 2] = [
    "M1: out of memory, for the debug information of a table.
Usual cause: a limit on memory (ulimit -v, a container), or a very large table.
What to do: allow more memory.
",
    "M2: the table is too large: its debug information could grow past 2^31 bytes.
Usual cause: hundreds of millions of rows, or texts that are repeated in each unit.
What to do: split the table, and emit a file for each part.
",
];

/// The texts of L1 to L8: a file that can't be looked into.
pub const LOADING: [&str; 8] = [
    "L1: out of memory, for the file.
Usual cause: a limit on memory (ulimit -v, a container), or a very large file.
What to do: allow more memory; sections of debug information and of symbols are read whole.
",
    "L2: the file can't be read.
Usual cause: a path that isn't there, a folder, or a file that may not be read. It may be the
supplement (--sup).
What to do: ls -l shows what it is.
",
    "L3: the file isn't an ELF file.
Usual cause: a script, an archive (.a), or a program for Windows or macOS.
What to do: name the ELF file itself; of an archive, the program that it is linked into.
",
    "L4: the ELF file is of a kind that isn't supported.
Usual cause: a damaged header, with a class other than 32 and 64 bits, or section headers of
another size.
What to do: readelf -h shows what the header says.
",
    "L5: the file is cut short: a header, a section or a table is past its end.
Usual cause: a copy or a download that stopped, or a tool that cut the file.
What to do: get the file again.
",
    "L6: sections of debug information are compressed.
Usual cause: a debug package of a distribution, gcc -gz, or Go's linker.
What to do: add --decompress to linemap lookup; or objcopy --decompress-debug-sections IN OUT, and
look into OUT.
",
    "L7: the file isn't linked yet: its debug information has relocations to be filled in.
Usual cause: an object file (.o), or a kernel module (.ko).
What to do: link it, and look into the result.
",
    "L8: the debug information can't be read: reading it stops at the first damaged unit.
Usual cause: damaged debug information, a version above 5, or a file that was cut and padded.
What to do: readelf --debug-dump=info says where it is damaged; build the file again.
",
];

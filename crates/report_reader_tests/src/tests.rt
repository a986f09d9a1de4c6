//! Lines of reports against docs/FORMATS.md, "Report".

use domains::Level;
use report::write_file_entry;
use report_reader::{read_board_entry, read_file_entry};
use std::test::Fail;

/// Whether the line is one of the board.
fn is_of_board(rt: &HostRuntime, line: &str) -> bool {
    let mut scratch = String::new(rt.alloc());
    matches!(read_board_entry(&mut scratch, line), Ok(Some((_, ""))))
}

/// Whether the line is one of a file at `2x`.
fn is_of_file(rt: &HostRuntime, line: &str) -> bool {
    let mut scratch = String::new(rt.alloc());
    matches!(
        read_file_entry(rt.alloc(), &mut scratch, Level::two_copies(), line),
        Ok(Some((_, "")))
    )
}

#[test]
fn lines_of_the_board_are_read(rt: HostRuntime) -> Result<(), Fail> {
    for line in [
        "1.3 fail 3/1 changed\n",
        "16.4096 down 32/16 nochange gone\n",
        "1.5 up 2/1 nochange up\n",
        "2.1 failnode 32 changed\n",
    ] {
        assert!(rt; is_of_board(&rt, line), "{line}");
    }
    for line in [
        "1.3 fail 3/1 changed",
        "1.3 fail 3/1 changed \n",
        "1.3  fail 3/1 changed\n",
        "01.3 fail 3/1 changed\n",
        "1.3 fail 33/1 changed\n",
        "1.3 failnode 0 changed\n",
        "256.3 fail 3/1 changed\n",
        "1.3 fail 3/1 nochange\n",
        "1.3 lose 3/1 changed\n",
        "\n",
        "",
    ] {
        assert!(rt; !is_of_board(&rt, line), "{line}");
    }
    Ok(())
}

#[test]
fn lines_of_a_file_are_read(rt: HostRuntime) -> Result<(), Fail> {
    for line in [
        "1.1 e0 create 2x inode 0=1+1@1/1:0,2/1:0\n",
        "1.1 e0 create 2x refused exists\n",
        "1.1 e0 create 2x refused toofew 1 2\n",
        "1.1 e0 create 2x refused noroom 3 2 2/1\n",
        "1.4 e1 delete\n",
        "1.4 e1 delete refused absent\n",
        "1.2 e0 write 0 5 size 5 old - new 1=1+1@2/1:1,1/1:1 inode 2=1+1@1/1:2,2/1:2\n",
        "1.3 e0 write 0 32 size 32 old 1,4 new 5=4+2@1/1:1,2/1:1 6=1+1@1/1:2,2/1:2 inode 7=1+1@1/1:3,2/1:3\n",
        "1.3 e0 write 0 5 size 5 old - new - inode 2=1+1@-\n",
        "1.2 e0 write 0 5 refused absent\n",
        "1.2 e0 write 0 5 refused toofew 1 2\n",
        "1.2 e0 write 0 5 refused toolong 67108865\n",
        "1.2 e0 write 0 5 refused lost 1 0 1\n",
        "1.2 e0 write 0 5 refused noroom 3 2 -\n",
        "1.3 e0 read 0 5 shown 68656c6c6f\n",
        "1.3 e0 read 7 0 shown -\n",
        "1.3 e0 read 0 5 refused absent\n",
        "1.3 e0 read 0 5 refused lost 1 0 1\n",
        "1.3 e0 level +3d:1n1d\n",
        "1.3 e0 level 8x refused absent\n",
        "1.3 e0 dead 4 2\n",
    ] {
        assert!(rt; is_of_file(&rt, line), "{line}");
    }
    Ok(())
}

#[test]
fn other_lines_are_none_of_a_file(rt: HostRuntime) -> Result<(), Fail> {
    for line in [
        "1.1 e0 create 3x inode 0=1+1@1/1:0,2/1:0\n",
        "1.3 e0 read 0 5 shown 68656C6C6F\n",
        "1.3 e0 read 0 5 shown 6\n",
        "1.3 e0 read 0 5 shown \n",
        "1.3 e0 read 00 5 shown -\n",
        "1.3 e0 read 0 4294967296 shown -\n",
        "1.3 e0  read 0 5 shown -\n",
        "1.3 0 read 0 5 shown -\n",
        "1.3 e0 read 0 5 refused exists\n",
        "1.3 e0 level 9x\n",
        "1.3 e0 bar j 1/1\n",
        "1.3 e0 delete refused exists\n",
        "1.2 e0 write 0 5 size 5 old - new 1=1+1@2/1:4096,1/1:1 inode 2=1+1@1/1:2,2/1:2\n",
        "1.2 e0 write 0 5 size 5 old - new 1=1+1@2/1:1,1/1:1\n",
        "1.2 e0 write 0 5 size 5 old -1 new - inode 2=1+1@1/1:2,2/1:2\n",
        "1.3 e0 \n",
        "\n",
        "",
    ] {
        assert!(rt; !is_of_file(&rt, line), "{line}");
    }
    Ok(())
}

#[test]
fn an_entry_is_written_as_it_was_read(rt: HostRuntime) -> Result<(), Fail> {
    let line =
        "1.2 e3 write 8 5 size 13 old 1 new 3=2+1@2/1:1,1/1:1,3/2:7 inode 4=1+1@1/1:2,2/1:2\n";
    let mut scratch = String::new(rt.alloc());
    let declared = Level::two_copies();
    let read = read_file_entry(rt.alloc(), &mut scratch, declared, line)?;
    let (entry, _) = read.ok_or("the line is one of a file")?;
    let mut text = String::new(rt.alloc());
    write_file_entry(&mut text, declared, &entry)?;
    assert_eq!(rt; text.as_str(), line);
    Ok(())
}

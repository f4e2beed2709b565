ghost use Rattle.storage_law.specs.Examples.{Examples};
ghost use Rattle.storage_law.specs.Laws.{ReadsEndBehindTheirTag, WritesThatEndWellHaveTagged, WritesWaitForTheTag, WrittenTagsAreOfTheNewData};

/// A read of an object whose file has a tag ends with SUCCESS and some bytes only where the replies have brought all the data of the
/// object, and the last of them the HMAC of the file's name, the length and just these data.
pub fn reads_end_behind_their_tag()
    ensures { ReadsEndBehindTheirTag }
{}

/// A write of such an object asks for no FsWrite before replies have brought all the old data, and then their tag.
pub fn writes_wait_for_the_tag()
    ensures { WritesWaitForTheTag }
{}

/// What such a write asks to be written behind the new data is their tag: that of the data that were brought, with the written bytes
/// put in at the position.
pub fn written_tags_are_of_the_new_data()
    ensures { WrittenTagsAreOfTheNewData }
{}

/// Where such a write of some bytes ends with SUCCESS, it has asked for that tag to be written.
pub fn writes_that_end_well_have_tagged()
    ensures { WritesThatEndWellHaveTagged }
{}

/// What was brought to a read and to a write of six bytes, and the new data of that write.
pub fn worked_examples()
    ensures { Examples }
{}

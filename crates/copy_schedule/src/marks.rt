//! The marks over regions: the places that are owed, that await a copy, and that are asked for.

ghost use Rattle.std.specs.Prelude.{◌≡◌, ◌≤◌, ◌*◌, ◌&&◌, ◌||◌, not, false, pos, ℤ, Bool, [], All, replicate, if◌then◌else◌, IfOk};
ghost use Rattle.std.specs.Prelude.{IfSome, OnOk, OnErr, option_map};
ghost use Rattle.copy_schedule.specs.declared.Mark.TheVariants.{Clean, Owed};
ghost use Rattle.std.specs.List.{list_any};
ghost use Rattle.region.specs.Region.{covers, in_rect, rects_of};
ghost use Rattle.region.specs.Copies.{InOrder};
ghost use Rattle.region.specs.Places.{same_offset, longest_side};
ghost use Rattle.copy_schedule.specs.Marks.{is_clean, is_owed, is_copied, mark_at, asked_at, has_asked, with_marks, new_marks};
ghost use Rattle.copy_schedule.specs.Marks.{marked, copied_by, without_copyrect, requested, resized, pending, cut_of, cut_of_sent};
ghost use Rattle.copy_schedule.specs.Marks.{marks_after, copies_of, pixels_of, IsInside, HasSourcesInside, IsWithin, IsCutTo};
ghost use Rattle.copy_schedule.specs.MarkSets.{AreMarkSets, LiesOn, with_sets};
ghost use Rattle.copy_schedule.specs.Log.{logged, draws_asked, IsCutEntry};

use crate::chosen::{
    Sending, choose, first_copies, first_pixels, left_after, send_owed, sends_owed_alone,
};
use crate::log::take_entries;
use crate::mark_sets::{
    MarkSets, clone_of, forgetting, losing, moving, owing_copies, owing_on_screen,
};
use crate::sets::{part_of, screen_places};
use crate::{Cut, LogEntry};
use listed::Listed;
use region::{Rect, Region};
use std::alloc::{AllocError, Global};
use std::marker::Model;

/// One viewer's marks: the places of the screen that are owed to it, those that await a copy and by which offset, and those that it
/// asked for. All places that are neither owed nor await a copy are clean.
pub struct Marks {
    alloc: Global,
    width: u32,
    height: u32,
    sets: MarkSets,
    offset_x: i32,
    offset_y: i32,
    asked: Region,
}

// Written out, so that who holds one proves one call here, and not the drop of each field.
impl Drop for Marks {
    fn drop(self) {
        let Marks {
            alloc: _alloc,
            width: _width,
            height: _height,
            sets: _sets,
            offset_x: _offset_x,
            offset_y: _offset_y,
            asked: _asked,
        } = self;
    }
}

impl Model for Marks {
    ghost use Rattle.copy_schedule.specs.Marks.{Marks};
    ghost use Rattle.copy_schedule.specs.MarkSets.{mark_in_sets, IsScreen};
    ghost use Rattle.region.specs.Places.{by_place};
    ghost use Rattle.region.specs.Region.{covers};

    ghost Value = { Marks };

    ghost view = { λ a. record {
      width = a.width;
      height = a.height;
      marks = by_place a.width a.height (mark_in_sets a.sets);
      offset =
          (a.offset_x, a.offset_y);
      asked = by_place a.width a.height (covers a.asked.list);
    } };

    ghost invariant = { λ a. IsScreen a.width a.height a.sets a.asked.list };
}

/// The marks that a call would leave, ready for `Marks::commit`.
#[derive(Drop)]
pub struct Prepared {
    marks: Marks,
}

impl Model for Prepared {
    ghost use Rattle.copy_schedule.specs.Marks.{Marks};

    ghost Value = { Marks };

    ghost view = { λ a. a.marks };
}

/// What an update sends, and the marks that it would leave, ready for `Marks::commit`.
#[derive(Drop)]
pub struct PreparedCut {
    /// What the update sends.
    pub cut: Cut,
    /// The marks that it would leave.
    pub marks: Prepared,
}

impl Prepared {
    /// Returns the marks themselves. Takes no memory.
    pub fn into_marks(self) -> Marks
        ensures { result ≡ self }
    {
        self.marks
    }
}

impl Marks {
    /// Makes the marks of a viewer that connects: every place is owed, and none is asked for. `width` and `height` are in places,
    /// at most 8192 each. Takes no memory.
    pub fn new(alloc: Global, width: u32, height: u32) -> Marks
        requires columns { width ≤ longest_side }
        requires rows { height ≤ longest_side }
        ensures { result ≡ new_marks width height }
    {
        Marks {
            alloc,
            width,
            height,
            sets: MarkSets {
                owed: screen_places(alloc, width, height),
                copied: Region::new(alloc),
            },
            offset_x: 0,
            offset_y: 0,
            asked: Region::new(alloc),
        }
    }

    /// Returns equal marks. `AllocError` if memory is refused.
    pub fn try_clone(&self) -> Result<Marks, AllocError>
        ensures { IfOk result (λ marks. marks ≡ self.now) }
    {
        let sets = clone_of(self.alloc, &self.sets)?;
        let asked = self.asked.try_clone(self.alloc)?;
        Ok(Marks {
            alloc: self.alloc,
            width: self.width,
            height: self.height,
            sets,
            offset_x: self.offset_x,
            offset_y: self.offset_y,
            asked,
        })
    }

    /// Returns the marks as `mark` would leave them. `AllocError` if memory is refused.
    pub fn prepare_mark(&self, region: &Region) -> Result<Prepared, AllocError>
        ensures { IfOk result (λ prepared. prepared ≡ marked (covers region.now.list) self.now) }
    {
        let sets = owing_on_screen(self.alloc, &self.sets, region, self.width, self.height)?;
        let prepared = self.prepared(sets, (self.offset_x, self.offset_y))?;
        Ok(prepared)
    }

    /// Returns the marks as `copy` would leave them. `AllocError` if memory is refused.
    pub fn prepare_copy(
        &self,
        region: &Region,
        dx: i32,
        dy: i32,
        uses_copyrect: bool,
    ) -> Result<Prepared, AllocError>
        requires cut { IsCutTo self.now.width self.now.height (dx, dy) region.now.list }
        ensures { IfOk result (λ prepared. prepared ≡ copied_by (covers region.now.list) (dx, dy) uses_copyrect self.now) }
    {
        if !uses_copyrect {
            return self.prepare_mark(region);
        }
        let stays = self.has_offset(dx, dy);
        let left = losing(self.alloc, &self.sets, region, (dx, dy), stays)?;
        let sets = moving(self.alloc, &left, region, (dx, dy))?;
        let prepared = self.prepared(sets, (dx, dy))?;
        Ok(prepared)
    }

    /// Returns the marks as `apply_log` would leave them. `AllocError` if memory is refused.
    pub fn prepare_log(
        &self,
        entries: &[LogEntry],
        uses_copyrect: bool,
    ) -> Result<Prepared, AllocError>
        requires cut { All (IsCutEntry self.now.width self.now.height) entries.now }
        ensures { IfOk result (λ prepared. prepared ≡ logged uses_copyrect entries.now self.now) }
    {
        if let [LogEntry::Mark(region)] = entries {
            return self.prepare_mark(region);
        }
        let mut marks = self.try_clone()?;
        take_entries(&mut marks, entries, uses_copyrect)?;
        Ok(Prepared { marks })
    }

    /// Returns the marks for a screen of another size, `width` columns and `height` rows, 1 to 8192 each: every place is owed, and
    /// none awaits a copy. Of the places that were asked for, those stay so that are on the new screen and in `view`. `AllocError`
    /// if memory is refused.
    pub fn prepare_resize(
        &self,
        width: u32,
        height: u32,
        view: Rect,
    ) -> Result<Prepared, AllocError>
        requires columns { width ≤ longest_side }
        requires rows { height ≤ longest_side }
        ensures { IfOk result (λ prepared. prepared ≡ resized width height (in_rect view) self.now) }
    {
        let alloc = self.alloc;
        let seen = part_of(alloc, view, (0, 0), width, height);
        let asked = self.asked.intersection(&seen)?;
        let all = screen_places(alloc, width, height);
        Ok(Prepared {
            marks: Marks {
                alloc,
                width,
                height,
                sets: MarkSets {
                    owed: all,
                    copied: Region::new(alloc),
                },
                offset_x: 0,
                offset_y: 0,
                asked,
            },
        })
    }

    /// Replaces the marks by the prepared ones. Takes no memory.
    pub fn commit(&mut self, prepared: Prepared)
        ensures { self.new ≡ prepared }
    {
        *self = prepared.marks;
    }

    /// Marks the region's places on the screen as owed (`rfbMarkRegionAsModified` of `rfb.h`). After an `AllocError` the marks are
    /// as they were.
    pub fn mark(&mut self, region: &Region) -> Result<(), AllocError>
        ensures ok { OnOk result (self.new ≡ marked (covers region.now.list) self.old) }
        ensures err { OnErr result (self.new ≡ self.old) }
    {
        let prepared = self.prepare_mark(region)?;
        self.commit(prepared);
        Ok(())
    }

    /// Notes that a copy drew `region` with the pixels of the places less (`dx`, `dy`) (`rfbScheduleCopyRegion` of `rfb.h`). If
    /// `uses_copyrect`, places that await pixels by another offset first become owed, and so do those from which this copy takes
    /// pixels that they still await; then the viewer may copy those of the region's places itself that aren't owed and whose
    /// sources aren't. The other places of the region become owed, and so do places that await pixels already whose sources are owed.
    ///
    /// The region is on the screen with its sources. It is meant to have places, and the offset not to be (0, 0). After an
    /// `AllocError` the marks are as they were.
    pub fn copy(
        &mut self,
        region: &Region,
        dx: i32,
        dy: i32,
        uses_copyrect: bool,
    ) -> Result<(), AllocError>
        requires cut { IsCutTo self.old.width self.old.height (dx, dy) region.now.list }
        ensures ok { OnOk result (self.new ≡ copied_by (covers region.now.list) (dx, dy) uses_copyrect self.old) }
        ensures err { OnErr result (self.new ≡ self.old) }
    {
        let prepared = self.prepare_copy(region, dx, dy, uses_copyrect)?;
        self.commit(prepared);
        Ok(())
    }

    /// Applies the drawing of a log, the first entry's first: each `Mark` by `mark`, each `Copy` by `copy`. Makes new regions for
    /// each entry, so `joined_log` first makes a long log shorter. After an `AllocError` the marks are as they were.
    pub fn apply_log(&mut self, entries: &[LogEntry], uses_copyrect: bool) -> Result<(), AllocError>
        requires cut { All (IsCutEntry self.old.width self.old.height) entries.now }
        ensures ok { OnOk result (self.new ≡ logged uses_copyrect entries.now self.old) }
        ensures err { OnErr result (self.new ≡ self.old) }
    {
        let prepared = self.prepare_log(entries, uses_copyrect)?;
        self.commit(prepared);
        Ok(())
    }

    /// Takes a FramebufferUpdateRequest (RFC 6143, section 7.5.3): the viewer asks for the places of `rect` on the screen. Unless
    /// `incremental`, marks them as owed, and with them the places that await a copy from one of them. After an `AllocError` the
    /// marks are as they were.
    pub fn request(&mut self, rect: Rect, incremental: bool) -> Result<(), AllocError>
        ensures ok { OnOk result (self.new ≡ requested (in_rect rect) incremental self.old) }
        ensures err { OnErr result (self.new ≡ self.old) }
    {
        let (width, height) = (self.width, self.height);
        let part = part_of(self.alloc, rect, (0, 0), width, height);
        let asked = self.asked.union(&part)?;
        if incremental {
            self.asked = asked;
            return Ok(());
        }
        let offset = (self.offset_x, self.offset_y);
        let awaiting = part_of(self.alloc, rect, offset, width, height);
        let sets = forgetting(&self.sets, &part, &awaiting)?;
        self.sets = sets;
        self.asked = asked;
        Ok(())
    }

    /// Marks the places that await a copy as owed, where the viewer's SetEncodings lists no CopyRect (RFC 6143, section 7.5.2).
    /// After an `AllocError` the marks are as they were.
    pub fn no_copyrect(&mut self) -> Result<(), AllocError>
        ensures ok { OnOk result (self.new ≡ without_copyrect self.old) }
        ensures err { OnErr result (self.new ≡ self.old) }
    {
        let sets = owing_copies(&self.sets)?;
        self.sets = sets;
        Ok(())
    }

    /// Says whether the viewer asks for any place.
    pub fn has_asked(&self) -> bool
        ensures { result ≡ has_asked self.now }
    {
        self.asked.list_is_canonical();
        !self.asked.is_empty()
    }

    /// Says whether any place is asked for and not clean (`FB_UPDATE_PENDING` of `rfb.h`), so that `cut` gives something.
    pub fn pending(&self) -> bool
        ensures { result ≡ pending self.now }
    {
        self.asked.meets(&self.sets.owed) || self.asked.meets(&self.sets.copied)
    }

    /// Says what `pending` would say after `apply_log` with `entries`, whether the viewer uses CopyRect or not. Takes no memory.
    pub fn pending_after(&self, entries: &[LogEntry]) -> bool
        ensures { (uses_copyrect : Bool) → result ≡ pending (logged uses_copyrect entries.now self.now) }
    {
        // for a viewer that asks for nothing, the log isn't looked at
        if !self.has_asked() {
            return false;
        }
        self.pending() || self.some_draws_asked(entries)
    }

    /// Returns what the next update sends (`rfbSendFramebufferUpdate` of `rfb.h`), and the marks once it is sent: its places are
    /// clean, every other place that is not clean is owed, none is asked for, and the offset is (0, 0).
    ///
    /// The update sends a place as a copy if the place awaits one and its source is asked for too. It sends the first ones of the
    /// copies, and of the pixel rectangles, at most `limit` of each (`maxRectsPerUpdate` of `rfb.h`). `None` if no place is asked
    /// for and not clean. `AllocError` if memory is refused.
    pub fn prepare_cut(&self, limit: u32) -> Result<Option<PreparedCut>, AllocError>
        ensures sent { IfOk result (λ p. option_map (λ q. q.cut) p ≡ option_map cut_of_sent (cut_of limit self.now)) }
        ensures after { IfOk result (λ p. IfSome p (λ q. q.marks ≡ marks_after limit self.now)) }
        ensures inside { IfOk result (λ p. IfSome p (λ q. IsInside self.now.width self.now.height q.cut)) }
        ensures sources { IfOk result (λ p. IfSome p (λ q. HasSourcesInside self.now.width self.now.height q.cut)) }
        ensures count { IfOk result (λ p. IfSome p (λ q. IsWithin limit q.cut)) }
        ensures ordered { IfOk result (λ p. IfSome p (λ q. InOrder q.cut.offset q.cut.copies)) }
    {
        if !self.pending() {
            return Ok(None);
        }
        let Sending {
            copies,
            pixels,
            owed,
        } = self.sending(limit)?;
        let marks = self.owing_only(owed);
        Ok(Some(PreparedCut {
            cut: Cut {
                copies: Listed::from_vec(copies),
                offset: self.offset(),
                pixels: Listed::from_vec(pixels),
            },
            marks,
        }))
    }

    /// Returns what `prepare_cut` gives, and marks it as sent. Changes nothing if that is `None`. After an `AllocError` the marks
    /// are as they were.
    pub fn cut(&mut self, limit: u32) -> Result<Option<Cut>, AllocError>
        ensures sent { IfOk result (λ cut. cut ≡ option_map cut_of_sent (cut_of limit self.old)) }
        ensures after { OnOk result (self.new ≡ marks_after limit self.old) }
        ensures inside { IfOk result (λ cut. IfSome cut (IsInside self.old.width self.old.height)) }
        ensures sources { IfOk result (λ cut. IfSome cut (HasSourcesInside self.old.width self.old.height)) }
        ensures count { IfOk result (λ cut. IfSome cut (IsWithin limit)) }
        ensures ordered { IfOk result (λ cut. IfSome cut (λ c. InOrder c.offset c.copies)) }
        ensures err { OnErr result (self.new ≡ self.old) }
    {
        let Some(PreparedCut { cut, marks }) = self.prepare_cut(limit)? else {
            return Ok(None);
        };
        self.commit(marks);
        Ok(Some(cut))
    }

    /// Returns the columns of the screen, at most 8192.
    pub fn width(&self) -> u32
        ensures same { result ≡ self.now.width }
        ensures limit { result ≤ longest_side }
    {
        self.width
    }

    /// Returns the rows of the screen, at most 8192.
    pub fn height(&self) -> u32
        ensures same { result ≡ self.now.height }
        ensures limit { result ≤ longest_side }
    {
        self.height
    }

    /// Returns the offset (dx, dy) of the pending copies.
    pub fn offset(&self) -> (i32, i32)
        ensures { result ≡ self.now.offset }
    {
        (self.offset_x, self.offset_y)
    }

    /// Returns the owed places.
    pub fn modified(&self) -> &Region
        ensures { result.now.list ≡ rects_of self.now.width self.now.height (λ x y. is_owed (mark_at self.now x y)) }
    {
        self.sets.owed.list_is_canonical();
        &self.sets.owed
    }

    /// Returns the places that await a copy.
    pub fn copied(&self) -> &Region
        ensures { result.now.list ≡ rects_of self.now.width self.now.height (λ x y. is_copied (mark_at self.now x y)) }
    {
        self.sets.copied.list_is_canonical();
        &self.sets.copied
    }

    /// Returns the places that the viewer asks for.
    pub fn requested(&self) -> &Region
        ensures { result.now.list ≡ rects_of self.now.width self.now.height (asked_at self.now) }
    {
        self.asked.list_is_canonical();
        &self.asked
    }

    // Returns the marks with `sets` and `offset` in place of their own.
    fn prepared(&self, sets: MarkSets, offset: (i32, i32)) -> Result<Prepared, AllocError>
        requires { AreMarkSets self.now.width self.now.height sets }
        ensures { IfOk result (λ prepared. prepared ≡ record (with_sets sets self.now) { offset = offset }) }
    {
        let asked = self.asked.try_clone(self.alloc)?;
        Ok(Prepared {
            marks: Marks {
                alloc: self.alloc,
                width: self.width,
                height: self.height,
                sets,
                offset_x: offset.0,
                offset_y: offset.1,
                asked,
            },
        })
    }

    // Returns what the next update sends, at most `limit` copies and `limit` pixel rectangles, and what is owed after it.
    fn sending(&self, limit: u32) -> Result<Sending, AllocError>
        ensures copies { IfOk result (λ s. s.copies.items ≡ copies_of limit self.now) }
        ensures pixels { IfOk result (λ s. s.pixels.items ≡ pixels_of limit self.now) }
        ensures owed { IfOk result (λ s. (x y : ℤ) →
            covers s.owed.list x y ≡
            (not (is_clean (mark_at self.now x y)) && not (covers s.copies.items x y || covers s.pixels.items x y))) }
    {
        if sends_owed_alone(&self.sets, &self.asked, self.width, self.height) {
            return send_owed(self.alloc, &self.sets.owed, limit);
        }
        let offset = (self.offset_x, self.offset_y);
        let parts = choose(self.alloc, &self.sets, &self.asked, offset)?;
        let copies = first_copies(self.alloc, &parts.copies, offset, limit)?;
        let pixels = first_pixels(&parts.pixels, limit)?;
        let owed = left_after(self.alloc, &parts.unclean, &copies, &pixels)?;
        Ok(Sending {
            copies,
            pixels,
            owed,
        })
    }

    // Returns the marks with the places of `owed` owed and no others, and none asked for.
    fn owing_only(&self, owed: Region) -> Prepared
        requires { LiesOn self.now.width self.now.height owed.list }
        ensures { result ≡ record (with_marks self.now (λ x y. if covers owed.list x y then Owed else Clean)) {
          offset =
              (pos 0, pos 0);
          asked = replicate (self.now.width * self.now.height) false;
        } }
    {
        Prepared {
            marks: Marks {
                alloc: self.alloc,
                width: self.width,
                height: self.height,
                sets: MarkSets {
                    owed,
                    copied: Region::new(self.alloc),
                },
                offset_x: 0,
                offset_y: 0,
                asked: Region::new(self.alloc),
            },
        }
    }

    // Says whether an entry of a log draws a place that the viewer asks for.
    fn draws_asked(&self, entry: &LogEntry) -> bool
        ensures { result ≡ draws_asked self.now entry.now }
    {
        self.asked.meets(entry.region())
    }

    // Says whether one of the entries draws a place that the viewer asks for.
    fn some_draws_asked(&self, entries: &[LogEntry]) -> bool
        ensures { result ≡ list_any (draws_asked self.now) entries.now }
    {
        entries.iter().any(|entry| self.draws_asked(entry))
    }

    fn has_offset(&self, dx: i32, dy: i32) -> bool
        ensures { result ≡ same_offset self.now.offset (dx, dy) }
    {
        self.offset_x == dx && self.offset_y == dy
    }
}
